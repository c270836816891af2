// Definitions and proofs only: what holds of every run of one end.
#![tactic(auto)]
