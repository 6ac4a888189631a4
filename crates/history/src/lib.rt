// No code: what a host is, where the talk stands between two advances, and what the definitions of
// `solve_blocks` say of each.
#![tactic(auto)]
