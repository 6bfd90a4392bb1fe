// Proof only: each step of the lowering, from a state that represents labelled code, is refused or gives one that represents the labelled step's.
#![tactic(auto)]
