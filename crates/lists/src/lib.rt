// Laws alone: lists, sums and order.
#![tactic(auto)]
