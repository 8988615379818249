// The demands of document 00, sentence by sentence: specs/Demands.antt. There is no code here.
#![tactic(auto)]
