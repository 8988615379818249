// What is promised of captures of the two wires: laws alone, no code.
#![tactic(auto)]
