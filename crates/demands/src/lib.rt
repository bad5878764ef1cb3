// Laws alone: the demands on the operations, a theorem each.
#![tactic(auto)]
