// Driver and chip together: the demands are in specs/ (the statements) and proofs/: no code of its own.
#![tactic(auto)]
