// Proof only: how jump lists threaded through words represent the labels of labelled code.
#![tactic(auto)]
