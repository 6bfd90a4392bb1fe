// Proof only: which of the lent buffers the steps of the lowering neither read nor change.
#![tactic(auto)]
