// The worked examples of document 01, P1 to P12: one table in specs/, one theorem in proofs/. No code.
#![tactic(auto)]
