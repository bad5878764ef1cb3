// Laws alone: walks counted by weights, the fewest hops of a count, and the recurrence by the last leg.
#![tactic(auto)]
