// What stands on the shelf of a host that puts every reported step there, at any point of any journal: the last 48
// steps that were accepted since the last modified point. No code: see specs/ and proofs/.
#![tactic(auto)]
