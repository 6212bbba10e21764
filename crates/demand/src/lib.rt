// What a queue's tasks ask for: their demand, and their deadlines (docs/RULES.md, Demand, verdict and wait).
#![tactic(auto)]

pub mod deadlines; // deadlines.rt: the work of a block of windows
pub mod due; // due.rt: demand
pub mod series; // series.rt: one task's deadlines
