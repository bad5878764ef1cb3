// Definitions and their figures alone: specs/ says what a plan, a walk, a path and a load are, proofs/ has figures of small plans.
#![tactic(auto)]
