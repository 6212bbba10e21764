// The jobs of a state: the step rules over those of all tasks, each a pass of its own (docs/RULES.md, The runner).
#![tactic(auto)]

ghost use Rattle.std.specs.Prelude.{◌≡◌, ℕ, ◌<◌, ◌≤◌};
ghost use Rattle.laws.specs.Bits.{in_set, set_of};
ghost use Rattle.theory.specs.Steps.{released, earliest};
ghost use Rattle.theory.specs.Job.{Job as Theory, fresh, is_late, drop};
ghost use Rattle.table.specs.Table.{tasks_of};
ghost use Rattle.jobs.specs.Entries.{job_in, row, Makes, choice_of, chosen_by, aged};

use job::Job;
use table::Table;

// The jobs that a step makes for the first n tasks.
fn first<F: Fn(usize) -> Job>(n: usize, of: F) -> [Job; Table::TASKS]
    requires fits { n ≤ 32 }
    requires callable { (i : ℕ) → i < n → F.pre of i }
    ensures { (js : ℕ → Theory) → Makes (F.post of) n js → result ≡ row n js }
{
    let mut jobs = [Job::NONE; Table::TASKS];
    for i in 0..n {
        jobs[i] = of(i);
    }
    jobs
}

// A table's tasks, which are no more than a state's entries.
#[derive(Clone, Copy)]
pub struct Tasks<'a> {
    pub table: &'a Table,
    ghost few: { table.now.tasks ≤ 32 },
}

impl<'a> Tasks<'a> {
    // No work, and since at the gap for every task.
    pub fn fresh(&self) -> [Job; Table::TASKS]
        ensures { let t = self.now.table.now in result ≡ row t.tasks (λ i. fresh ((tasks_of t).task i)) }
    {
        first(self.table.tasks, |i| Job::fresh(self.table.task[i]))
    }

    // Rule 1.
    pub fn release(&self, entries: &[Job; Table::TASKS], set: u32) -> [Job; Table::TASKS]
        ensures { let t = self.now.table.now in result ≡ row t.tasks (released (tasks_of t) (in_set set) (job_in entries.now)) }
    {
        first(self.table.tasks, |i| {
            entries[i].release(self.table.task[i], job::is_in(set, i))
        })
    }

    // Rule 2: of the jobs of the queue with work the one with the least left, of equals the lower task, which the contract of
    // `min_by_key` leaves open.
    pub fn earliest(&self, entries: &[Job; Table::TASKS], queue: u8) -> Option<usize>
        ensures { result ≡ choice_of (earliest (tasks_of self.now.table.now) queue (job_in entries.now)) }
    {
        let mut best = None;
        for i in 0..self.table.tasks {
            if entries[i].is_sooner(self.table.task[i], queue, best.map(|best| entries[best])) {
                best = Some(i);
            }
        }
        best
    }

    // Rules 2 and 3: the chosen job is served, and time goes on for every job.
    pub fn age(&self, entries: &[Job; Table::TASKS], choice: Option<usize>) -> [Job; Table::TASKS]
        ensures { let t = self.now.table.now in result ≡ row t.tasks (aged t (chosen_by choice) (job_in entries.now)) }
    {
        first(self.table.tasks, |i| {
            entries[i].serve(choice == Some(i)).age(self.table.task[i])
        })
    }

    // Rule 3: the late jobs are named,
    pub fn late_set(&self, entries: &[Job; Table::TASKS]) -> u32
        ensures { result ≡ set_of (λ i. is_late (job_in entries.now i)) self.now.table.now.tasks }
    {
        let mut set = 0;
        for i in 0..self.table.tasks {
            if entries[i].is_late() {
                set += 1 << i;
            }
        }
        set
    }

    // and dropped.
    pub fn drop_late(&self, entries: &[Job; Table::TASKS]) -> [Job; Table::TASKS]
        ensures { result ≡ row self.now.table.now.tasks (λ i. drop (job_in entries.now i)) }
    {
        first(self.table.tasks, |i| entries[i].drop_late())
    }
}
