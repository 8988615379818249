// The laws of the chip are in specs/ (the statements) and proofs/: no code of its own.
#![tactic(auto)]
