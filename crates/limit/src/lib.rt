// No code: what a larger limit of steps changes of a run, and what it leaves alone (specs), and the theorems (proofs):
// raising max_steps moves no forecast.
#![tactic(auto)]
