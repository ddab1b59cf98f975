#![tactic(auto)]

// The rules of the browser as definitions alone: see specs, in the order of Lib.antt.
