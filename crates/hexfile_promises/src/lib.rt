// What is promised of Intel HEX: laws alone, no code.
#![tactic(auto)]
