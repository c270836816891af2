// Definitions and proofs only: what holds of two ends and the channel between them.
#![tactic(auto)]
