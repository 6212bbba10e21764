// How far the verdict looks: the least common multiple of the period and of the gaps of a queue's tasks, up to a limit
// (docs/RULES.md, Demand, verdict and wait).
#![tactic(auto)]

ghost use Rattle.std.specs.Prelude.{◌≡◌, ◌≤◌};
ghost use Rattle.theory.specs.Search.{lcm, lcm_of};
ghost use Rattle.table.specs.Table.{tasks_of};
ghost use Rattle.multiple.specs.Limited.{within_limit};

use demand::due;
use table::WellFormedTable;

// The largest multiple for which there is a verdict.
pub const LIMIT: u32 = 1_000_000;

// The first multiple of `base` that `gap` divides: the loop goes from multiple to multiple, and counts none.
fn common(base: u32, gap: u32) -> Option<u32>
    requires in_bounds { (1 ≤ base) × (base ≤ 1000000) × (1 ≤ gap) × (gap ≤ 65535) }
    ensures { result ≡ within_limit (lcm base gap) }
{
    let mut multiple = base;
    while multiple <= LIMIT {
        if multiple % gap == 0 {
            return Some(multiple);
        }
        multiple += base;
    }
    None
}

pub fn of_queue(table: &WellFormedTable, queue: u32) -> Option<u32>
    ensures { result ≡ within_limit (lcm_of (tasks_of table.now.table.now) queue table.now.table.now.period) }
{
    let mut multiple = u32::from(table.table.period);
    for task in due::tasks(table) {
        if u32::from(task.queue) == queue {
            multiple = common(multiple, u32::from(task.gap))?;
        }
    }
    Some(multiple)
}
