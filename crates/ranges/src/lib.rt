// Every number of a browser that items which were read have made is in its range: see proofs. No code.
#![tactic(auto)]
