// Laws alone: what follows from the definitions of plans, walks, paths and loads.
#![tactic(auto)]
