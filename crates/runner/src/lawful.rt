// When a state is lawful for a table, and which releases are early.
ghost use Rattle.std.specs.Prelude.{◌≡◌, ◌≤◌};
ghost use Rattle.laws.specs.Test.{none};
ghost use Rattle.table.specs.Table.{as_task};
ghost use Rattle.job.specs.Entry.{job_of};
ghost use Rattle.jobs.specs.Entries.{job_in, choice_of};
ghost use Rattle.runner.specs.State.{is_idle, is_open, is_lawful_job, is_zero, unlawful, left_over, is_lawful};
ghost use Rattle.runner.specs.Step.{early_task};

use crate::State;
use job::Job;
use table::{Table, Task};

fn is_idle(job: Job) -> bool
    ensures { result ≡ is_idle (job_of job) }
{
    job.remaining == 0 && job.left == 0
}

// The true sum of since and left can need 17 bits.
fn is_open(job: Job, task: Task) -> bool
    ensures { result ≡ is_open (as_task task) (job_of job) }
{
    1 <= job.remaining
        && job.remaining <= task.work
        && 1 <= job.left
        && u32::from(job.since) + u32::from(job.left) == u32::from(task.deadline)
}

fn is_lawful_job(job: Job, task: Task) -> bool
    ensures { result ≡ is_lawful_job (as_task task) (job_of job) }
{
    job.since <= task.gap && (is_idle(job) || is_open(job, task))
}

fn is_zero(job: Job) -> bool
    ensures { result ≡ is_zero (job_of job) }
{
    job.since == 0 && is_idle(job)
}

fn jobs_are_lawful(entries: &[Job; Table::TASKS], table: &Table) -> bool
    requires { table.now.tasks ≤ 32 }
    ensures { result ≡ none (unlawful table.now (job_in entries.now)) table.now.tasks }
{
    (0..table.tasks).all(|i| is_lawful_job(entries[i], table.task[i]))
}

fn rest_is_zero(entries: &[Job; Table::TASKS], n: usize) -> bool
    ensures { result ≡ none (left_over n (job_in entries.now)) 32 }
{
    (n..Table::TASKS).all(|i| is_zero(entries[i]))
}

#[tactic(auto, unfolding(crate::specs::State::is_lawful))]
pub fn is_lawful(state: &State, table: &Table) -> bool
    requires { (table.now.locations ≤ 128) × (table.now.tasks ≤ 32) }
    ensures { result ≡ is_lawful table.now state.now }
{
    let v = usize::from(state.location);
    v < table.locations
        && state.done < table.location[v].ticks
        && jobs_are_lawful(&state.jobs, table)
        && rest_is_zero(&state.jobs, table.tasks)
}

// The lowest task that is released but lies past the tasks, or whose since is below its gap.
pub fn early(entries: &[Job; Table::TASKS], table: &Table, set: u32) -> Option<usize>
    ensures { result ≡ choice_of (early_task table.now (job_in entries.now) set) }
{
    (0..Table::TASKS).find(|&i| {
        job::is_in(set, i) && (table.tasks <= i || entries[i].since < table.task[i].gap)
    })
}
