// The blocks of `solve` between two calls of the host (radau.rs:330-798): what they hand on, their definitions (specs),
// and laws about them (proofs). No code: that is `radau`, whose check takes minutes. So laws about the definitions
// don't wait for it, and an edit of a definition is refused here in seconds.
#![tactic(auto)]

pub mod step;
pub mod sums;
