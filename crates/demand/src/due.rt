// Demand: the work that can both be released and be due within a window.
ghost use Rattle.std.specs.Prelude.{◌≡◌, ◌≤◌};
ghost use Rattle.theory.specs.Task.{LawfulTask, demand_of, demand};
ghost use Rattle.table.specs.Table.{as_task, tasks_of};
ghost use Rattle.demand.specs.Listed.{Lists};

use table::{Task, WellFormedTable};

// The tasks that count. The queue's own are picked where they are used: a filtered iterator cannot be returned, since its closure's
// type has no name.
pub fn tasks<'a>(table: &WellFormedTable<'a>) -> &'a [Task]
    ensures { Lists table.now.table.now result.now }
{
    &table.table.task[..table.table.tasks]
}

// One task's part: nothing before its deadline, then its work once, and once more with each gap.
fn of_task(task: &Task, window: u32) -> u32
    requires in_window { window ≤ 2000000 }
    requires lawful { LawfulTask (as_task task.now) }
    ensures { (result ≡ demand_of (as_task task.now) window) × (result ≤ window) }
{
    let deadline = u32::from(task.deadline);
    if window < deadline {
        return 0;
    }
    let jobs = (window - deadline) / u32::from(task.gap) + 1;
    u32::from(task.work) * jobs
}

pub fn of_queue(table: &WellFormedTable, queue: u32, window: u32) -> u32
    requires { window ≤ 2000000 }
    ensures { result ≡ demand (tasks_of table.now.table.now) queue window }
{
    let mut sum: u32 = 0;
    for task in tasks(table) {
        if u32::from(task.queue) == queue {
            sum += of_task(task, window);
        }
    }
    sum
}
