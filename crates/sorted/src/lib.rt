// What the nine tables of the browser share (01 Numbers, names, sizes: every table is kept in rising order of its key), as definitions and laws: see specs and proofs. No code.
#![tactic(auto)]
