// The columns of a lent tree that the filling walks over: sums along each path, the least rest of the cycle, and marks where the
// windows that decide every bound start and end (docs/RULES.md, Runs and bounds).
#![tactic(auto)]

pub mod columns; // columns.rt: all of them
pub mod lent; // lent.rt: the lent tree
mod marks; // marks.rt: where corners start and end
pub mod rest; // rest.rt: the least up to the cycle's end
mod sums; // sums.rt: sums along each path
