// No code: what may differ between two runs that go side by side (specs), and the walk along the blocks by which the
// one goes where the other goes (proofs), written once for every request that compares two runs.
#![tactic(auto)]
