// Proof only: laws that several crates cite.
#![tactic(auto)]
