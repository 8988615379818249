// The promises of wear: no code, only statements (specs/) and their proofs (proofs/).
#![tactic(auto)]
