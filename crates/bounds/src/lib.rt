// The bounds of a table: least, most, cycle least and most, and the filling (docs/RULES.md, Runs and bounds).
#![tactic(auto)]

ghost use Rattle.std.specs.Prelude.{◌≡◌};
ghost use Rattle.table.specs.Reasons.{outcome};
ghost use Rattle.bounds.specs.Questions.{LeastAnswer, MostAnswer, CycleAnswers, Fills};
ghost use Rattle.bounds.specs.Answered.{ticks_answered, cycle_answered};

pub mod questions; // questions.rt: the bounds of a well-formed table
pub mod refusals; // refusals.rt: which question is refused

use questions::Asked;
use table::{Refusal, Refused, Table};

// A number of ticks for C, 0 beside a refusal.
#[repr(C)]
#[derive(Clone, Copy)]
pub struct TicksAnswer {
    pub refusal: Refusal,
    pub ticks: u32,
}

// The same of a whole cycle for C: its fewest and its most.
#[repr(C)]
#[derive(Clone, Copy)]
pub struct CycleAnswer {
    pub refusal: Refusal,
    pub least: u32,
    pub most: u32,
}

// The fewest and the most ticks of a whole cycle.
#[derive(Clone, Copy, Debug, Default, PartialEq, Eq)]
pub struct CycleTicks {
    pub least: u32,
    pub most: u32,
}

impl From<Result<u32, Refused>> for TicksAnswer {
    ghost from_gives = { λ r a. a ≡ ticks_answered r };

    fn from(answer: Result<u32, Refused>) -> TicksAnswer {
        TicksAnswer {
            refusal: Refusal::from(answer),
            ticks: answer.unwrap_or_default(),
        }
    }
}

impl From<Result<CycleTicks, Refused>> for CycleAnswer {
    ghost from_gives = { λ r a. a ≡ cycle_answered r };

    fn from(answer: Result<CycleTicks, Refused>) -> CycleAnswer {
        let cycle = answer.unwrap_or_default();
        CycleAnswer {
            refusal: Refusal::from(answer),
            least: cycle.least,
            most: cycle.most,
        }
    }
}

// The fewest ticks that the queue gets in any window of so many ticks.
pub fn least(table: Table, queue: u32, window: u32) -> Result<u32, Refused>
    ensures { LeastAnswer table queue window (ticks_answered result) }
{
    let table = refusals::of_window(&table, queue, window)?;
    let queue = queue as usize;
    let own = Asked {
        table,
        queue,
        own: true,
    };
    Ok(own.bound(window))
}

// The most: what the others leave at least.
pub fn most(table: Table, queue: u32, window: u32) -> Result<u32, Refused>
    ensures { MostAnswer table queue window (ticks_answered result) }
{
    let table = refusals::of_window(&table, queue, window)?;
    let queue = queue as usize;
    let others = Asked {
        table,
        queue,
        own: false,
    };
    Ok(window.saturating_sub(others.bound(window)))
}

// The fewest and the most in a whole cycle.
pub fn cycle(table: Table, queue: u32) -> Result<CycleTicks, Refused>
    ensures { CycleAnswers table queue (cycle_answered result) }
{
    let table = refusals::of_queue(&table, queue)?;
    let queue = queue as usize;
    let own = Asked {
        table,
        queue,
        own: true,
    };
    let others = Asked {
        table,
        queue,
        own: false,
    };
    Ok(CycleTicks {
        least: own.cycle(),
        most: u32::from(table.table.period).saturating_sub(others.cycle()),
    })
}

// The least of every window below two periods, into the entries of a lent slice.
pub fn fill(table: Table, queue: u32, out: &mut [u32]) -> Result<(), Refused>
    ensures { Fills table queue out.old out.new (outcome result) }
{
    let table = refusals::of_room(&table, queue, out.len())?;
    let queue = queue as usize;
    let own = Asked {
        table,
        queue,
        own: true,
    };
    own.leasts(out);
    Ok(())
}
