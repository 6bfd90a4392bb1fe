// Proof only: how many words, constants and bytes of text a lowering needs at most, and so how much to lend.
#![tactic(auto)]
