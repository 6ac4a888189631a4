// No code: the account of a run (specs) and the theorems that it is true (proofs), for the definitions of `opening` and
// `solve_blocks`, which the code equals.
#![tactic(auto)]
