// Proof only: demand 3, one theorem for the whole chunk.
#![tactic(auto)]
