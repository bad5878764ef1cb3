// Definitions and a theorem: the examples of document 01, P1 to P10, hold of the definitions.
#![tactic(auto)]
