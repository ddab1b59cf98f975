#![tactic(auto)]

// The nine tables as definitions alone: see specs.
