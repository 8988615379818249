// The promises of the driver, over any stream of line levels: specs/ states them, proofs/ keeps them.
#![tactic(auto)]
