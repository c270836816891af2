// Definitions and proofs only: runs that really happen.
#![tactic(auto)]
