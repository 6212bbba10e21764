// One job of a state, and what the step rules do to it (docs/RULES.md, The runner).
#![tactic(auto)]

ghost use Rattle.std.specs.Prelude.{◌≡◌, ◌&&◌, ◌<◌, eqb, ltb};
ghost use Rattle.laws.specs.Bits.{in_set};
ghost use Rattle.theory.specs.Job.{fresh, release, serve, age, is_late, drop};
ghost use Rattle.table.specs.Table.{as_task};
ghost use Rattle.job.specs.Entry.{job_of, entry_of, beats};

use table::Task;

// Ticks since the last release, work that remains, ticks left to the deadline.
#[repr(C)]
#[derive(Clone, Copy, Debug, PartialEq, Eq)]
pub struct Job {
    pub since: u16,
    pub remaining: u16,
    pub left: u16,
}

// Bit i of a set.
pub fn is_in(set: u32, i: usize) -> bool
    requires { i < 32 }
    ensures { result ≡ in_set set i }
{
    (set >> i) % 2 == 1
}

impl Job {
    // An entry past the tasks.
    pub const NONE: Job = Job {
        since: 0,
        remaining: 0,
        left: 0,
    };

    // No work, and ready for a release.
    pub fn fresh(task: Task) -> Job
        ensures { result ≡ entry_of (fresh (as_task task)) }
    {
        Job {
            since: task.gap,
            ..Job::NONE
        }
    }

    // Rule 1: a release.
    pub fn release(self, task: Task, released: bool) -> Job
        ensures { result ≡ entry_of (release (as_task task) released (job_of self)) }
    {
        if !released {
            return self;
        }
        Job {
            since: 0,
            remaining: task.work,
            left: task.deadline,
        }
    }

    // Does the job wait in the queue, with less left than the best so far? At first there is none.
    pub fn is_sooner(self, task: Task, queue: u8, best: Option<Job>) -> bool
        ensures { result ≡ ((eqb task.queue queue && ltb 0 self.remaining) && beats self best) }
    {
        task.queue == queue && 0 < self.remaining && best.is_none_or(|best| self.left < best.left)
    }

    // Rule 2: one tick of work.
    pub fn serve(self, served: bool) -> Job
        ensures { result ≡ entry_of (serve served (job_of self)) }
    {
        Job {
            remaining: self.remaining.saturating_sub(u16::from(served)),
            ..self
        }
    }

    // Rule 3: since grows by one up to the gap, left falls by one and is 0 for a finished job,
    pub fn age(self, task: Task) -> Job
        ensures { result ≡ entry_of (age (as_task task) (job_of self)) }
    {
        let left = if self.remaining == 0 {
            0
        } else {
            self.left.saturating_sub(1)
        };
        Job {
            since: self.since.saturating_add(1).min(task.gap),
            left,
            ..self
        }
    }

    // a job with work and left 0 is late,
    pub fn is_late(self) -> bool
        ensures { result ≡ is_late (job_of self) }
    {
        0 < self.remaining && self.left == 0
    }

    // and a late job is dropped; its since is not changed by that.
    pub fn drop_late(self) -> Job
        ensures { result ≡ entry_of (drop (job_of self)) }
    {
        if self.is_late() {
            Job {
                remaining: 0,
                ..self
            }
        } else {
            self
        }
    }
}
