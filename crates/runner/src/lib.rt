// The runner: it grants the ticks of a table, one step per tick (docs/RULES.md, The runner).
#![tactic(auto)]

ghost use Rattle.std.specs.Prelude.{◌≡◌};
ghost use Rattle.runner.specs.State.{fresh_answer, fresh_answered};
ghost use Rattle.runner.specs.Step.{step_answer, step_answered};

use job::Job;
use jobs::Tasks;
use table::{Refusal, Refused, Table};

mod lawful; // lawful.rt: states that may stand, releases that come early
mod places; // places.rt: where the next tick is
mod steps; // steps.rt: a step refused, a step accepted

// A location, how many of its ticks are done, and one job for each task; the entries past the tasks are 0.
#[repr(C)]
#[derive(Clone, Copy, Debug, PartialEq, Eq)]
pub struct State {
    pub location: u8,
    pub done: u16,
    pub jobs: [Job; Table::TASKS],
}

// The queue granted, the task that is served if any is, and the late set.
#[derive(Clone, Copy, Debug, Default, PartialEq, Eq)]
pub struct Granted {
    pub queue: u8,
    pub task: Option<u8>,
    pub late: u32,
}

// What C is handed for `State::fresh`.
#[repr(C)]
#[derive(Clone, Copy)]
pub struct FreshAnswer {
    pub refusal: Refusal,
    pub state: State,
}

// What C is handed for `State::step`: `served` says whether a task is, and `task` is 0 where none is.
#[repr(C)]
#[derive(Clone, Copy)]
pub struct StepAnswer {
    pub refusal: Refusal,
    pub state: State,
    pub queue: u8,
    pub served: bool,
    pub task: u8,
    pub late: u32,
}

impl State {
    pub const VARIABLES: usize = 8;

    // All zeros: what stands beside a refusal.
    const EMPTY: State = State {
        location: 0,
        done: 0,
        jobs: [Job::NONE; Table::TASKS],
    };

    // At the root, without work, and ready for every release.
    pub fn fresh(table: Table) -> Result<State, Refused>
        ensures { fresh_answered result ≡ fresh_answer table }
    {
        let accepted = judge::judge(&table)?;
        let tasks = Tasks {
            table: accepted.table,
        };
        Ok(State {
            location: 0,
            done: 0,
            jobs: tasks.fresh(),
        })
    }

    // One tick: values are the variables', released is the set of the tasks that are released. A refusal leaves the state as it is.
    pub fn step(
        &mut self,
        table: Table,
        values: [u16; State::VARIABLES],
        released: u32,
    ) -> Result<Granted, Refused>
        ensures { step_answered self.new result ≡ step_answer table self.old values released }
    {
        let table = steps::checked(self, &table, released)?;
        Ok(steps::accepted(self, &table, values, released))
    }
}

impl From<Result<State, Refused>> for FreshAnswer {
    ghost from_gives = { λ r a. a ≡ fresh_answered r };

    fn from(fresh: Result<State, Refused>) -> FreshAnswer {
        FreshAnswer {
            refusal: Refusal::from(fresh),
            state: fresh.unwrap_or(State::EMPTY),
        }
    }
}

impl StepAnswer {
    // The state after the step, and what the step gave.
    pub fn of(state: State, given: Result<Granted, Refused>) -> StepAnswer
        ensures { result ≡ step_answered state given }
    {
        let granted = given.unwrap_or_default();
        StepAnswer {
            refusal: Refusal::from(given),
            state,
            queue: granted.queue,
            served: granted.task.is_some(),
            task: granted.task.unwrap_or(0),
            late: granted.late,
        }
    }
}
