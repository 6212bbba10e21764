// No function: the crate holds definitions and laws on numbers that the other crates cite.
#![tactic(auto)]
