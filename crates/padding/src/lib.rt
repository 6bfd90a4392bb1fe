// Proof only: what lies behind the words, the constants and the texts of a lowering is zero.
#![tactic(auto)]
