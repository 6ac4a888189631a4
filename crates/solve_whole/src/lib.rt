// No code: `solve` in direct style, from its first call of the host to its result (specs), and the theorem that the
// advances of `radau` do the same (proofs).
#![tactic(auto)]
