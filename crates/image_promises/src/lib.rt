// The promises of images with counts: no code, only statements (specs/) and their proofs (proofs/).
#![tactic(auto)]
