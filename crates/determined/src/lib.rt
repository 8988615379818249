// Every contract leaves one answer: no code, only statements (specs/) and their proofs (proofs/).
#![tactic(auto)]
