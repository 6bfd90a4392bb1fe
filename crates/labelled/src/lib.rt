// Proof only: labelled code, whose pending jumps carry labels instead of lists, and why running it is reading the formulas.
#![tactic(auto)]
