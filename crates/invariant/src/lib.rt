// No code: that every accepted step, of whatever item, keeps the tables numbered and rooted, as proofs alone.
#![tactic(auto)]
