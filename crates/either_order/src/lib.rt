// Demand 3, as definitions and proofs alone: see specs and proofs.
#![tactic(auto)]
