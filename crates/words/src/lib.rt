// The vocabulary that every definition of this project is written in, and the laws of counting loops. No
// code: see specs/ and proofs/.
#![tactic(auto)]
