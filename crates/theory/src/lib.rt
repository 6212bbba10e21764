// No function: the crate holds what the rules mean, and the theorems about it.
#![tactic(auto)]
