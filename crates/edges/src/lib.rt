// "Edges to prove": P1 to P12. No code: specs/Edges.antt has the list, proofs/Edges.antt its one proof.
#![tactic(auto)]
