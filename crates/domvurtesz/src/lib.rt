// What C and Rust link: each question under one prefix, over numbers, lent slices and structs by value.
// Each function converts what the one that it calls returns, and its contract says what C is given.
#![tactic(auto)]

mod steps; // steps.rt: the fresh state and the step
mod tables; // tables.rt: judging, reading, writing, one field of a record
mod windows; // windows.rt: bounds, demand, verdict, wait
