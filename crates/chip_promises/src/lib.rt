// The promises of the chip: no code, only statements (specs/) and their proofs (proofs/).
#![tactic(auto)]
