// Laws alone: every trace of first way and next way follows the cursor.
#![tactic(auto)]
