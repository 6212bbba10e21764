// Questions about a queue and its windows (docs/RULES.md, Runs and bounds; Demand, verdict and wait).
ghost use Rattle.bounds.specs.Questions.{LeastAnswer, MostAnswer, CycleAnswers, Fills};
ghost use Rattle.verdict.specs.Questions.{DemandAnswer, VerdictAnswers, WaitAnswer};

use bounds::{CycleAnswer, TicksAnswer};
use search::VerdictAnswer;
use table::{Refusal, Table};

#[unsafe(no_mangle)]
pub extern "C" fn domvurtesz_least(table: Table, queue: u32, window: u32) -> TicksAnswer
    ensures { LeastAnswer table queue window result }
{
    TicksAnswer::from(bounds::least(table, queue, window))
}

#[unsafe(no_mangle)]
pub extern "C" fn domvurtesz_most(table: Table, queue: u32, window: u32) -> TicksAnswer
    ensures { MostAnswer table queue window result }
{
    TicksAnswer::from(bounds::most(table, queue, window))
}

#[unsafe(no_mangle)]
pub extern "C" fn domvurtesz_cycle(table: Table, queue: u32) -> CycleAnswer
    ensures { CycleAnswers table queue result }
{
    CycleAnswer::from(bounds::cycle(table, queue))
}

#[unsafe(no_mangle)]
pub extern "C" fn domvurtesz_fill(table: Table, queue: u32, out: &mut [u32]) -> Refusal
    ensures { Fills table queue out.old out.new result }
{
    Refusal::from(bounds::fill(table, queue, out))
}

#[unsafe(no_mangle)]
pub extern "C" fn domvurtesz_demand(table: Table, queue: u32, window: u32) -> TicksAnswer
    ensures { DemandAnswer table queue window result }
{
    TicksAnswer::from(verdict::demand(table, queue, window))
}

#[unsafe(no_mangle)]
pub extern "C" fn domvurtesz_verdict(table: Table, queue: u32) -> VerdictAnswer
    ensures { VerdictAnswers table queue result }
{
    VerdictAnswer::from(verdict::verdict(table, queue))
}

#[unsafe(no_mangle)]
pub extern "C" fn domvurtesz_wait(table: Table, queue: u32, ticks: u32) -> TicksAnswer
    ensures { WaitAnswer table queue ticks result }
{
    TicksAnswer::from(verdict::wait(table, queue, ticks))
}
