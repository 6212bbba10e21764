// What the filling does to a lent slice of numbers.
#![tactic(auto)]

pub mod passes; // passes.rt: from one end to the other
pub mod points; // points.rt: entries that are lowered
