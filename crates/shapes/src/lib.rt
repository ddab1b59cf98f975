#![tactic(auto)]

// The shapes of items and of events that go out, as definitions; and that what is read is in range: see specs and proofs. No code.
