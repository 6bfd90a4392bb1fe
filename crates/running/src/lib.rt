// Proof only: the model's run of words that encode labelled code goes where labelled code goes.
#![tactic(auto)]
