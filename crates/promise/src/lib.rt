// No function: the crate holds the theorems that join the verdict with the runner's own steps.
#![tactic(auto)]
