// Demand, verdict and wait of a queue (docs/RULES.md, Demand, verdict and wait).
#![tactic(auto)]

ghost use Rattle.std.specs.Prelude.{◌≡◌, ◌≤◌};
ghost use Rattle.bounds.specs.Answered.{ticks_answered};
ghost use Rattle.search.specs.Answered.{verdict_answered};
ghost use Rattle.verdict.specs.Questions.{DemandAnswer, VerdictAnswers, WaitAnswer};

use bounds::questions::Asked;
use bounds::refusals;
use demand::due;
use search::{Verdict, verdicts};
use supply::FILLING;
use supply::queues::Supply;
use table::{Reason, Refused, Table, WellFormedTable};

// The most ticks that a wait is asked for.
const TICKS: u32 = 65_535;

// The queue's supply, over a lent array that is filled.
fn supply_of<'a>(
    table: &'a WellFormedTable<'a>,
    queue: u32,
    filled: &'a mut [u32; FILLING],
) -> Supply<'a>
    requires { 1 ≤ queue }
    ensures table { result.table.now ≡ table.now }
    ensures queue { result.queue ≡ queue }
{
    let own = Asked {
        table: *table,
        queue: queue as usize,
        own: true,
    };
    own.leasts(filled);
    let cycle = own.cycle();
    Supply {
        table,
        queue,
        filled,
        cycle,
    }
}

// The most work that can both be released and be due within a window.
pub fn demand(table: Table, queue: u32, window: u32) -> Result<u32, Refused>
    ensures { DemandAnswer table queue window (ticks_answered result) }
{
    let accepted = refusals::of_window(&table, queue, window)?;
    Ok(due::of_queue(&accepted, queue, window))
}

// Is demand at most the least supply in every window? Else the shortest window in which it is not.
pub fn verdict(table: Table, queue: u32) -> Result<Verdict, Refused>
    ensures { VerdictAnswers table queue (verdict_answered result) }
{
    let accepted = refusals::of_queue(&table, queue)?;
    let past = Refused::whole(Reason::Horizon);
    let multiple = multiple::of_queue(&accepted, queue).ok_or(past)?;
    let mut filled = [0u32; FILLING];
    let supply = supply_of(&accepted, queue, &mut filled);
    Ok(verdicts::decide(&supply, multiple))
}

// The longest time until one message of so many ticks, alone in its queue, is sent.
pub fn wait(table: Table, queue: u32, ticks: u32) -> Result<u32, Refused>
    ensures { WaitAnswer table queue ticks (ticks_answered result) }
{
    let accepted = refusals::of_queue(&table, queue)?;
    if !(1..=TICKS).contains(&ticks) {
        return Err(Refused::whole(Reason::Amount));
    }
    let mut filled = [0u32; FILLING];
    let supply = supply_of(&accepted, queue, &mut filled);
    if supply.cycle == 0 {
        return Err(Refused::whole(Reason::Never));
    }
    Ok(waits::longest(&supply, ticks))
}
