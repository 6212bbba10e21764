// From a filling to the least of every window, by the law of the period (docs/RULES.md, Runs and bounds).
#![tactic(auto)]

ghost use Rattle.std.specs.Prelude.{◌≡◌, ℕ, ◌*◌, ◌<◌, ◌≤◌};
ghost use Rattle.table.specs.Columns.{entry};
ghost use Rattle.supply.specs.Supply.{supply_at};

pub mod queues; // queues.rt: the supply of a queue

// Room for two periods of a table that is as long as may be.
pub const FILLING: usize = 2048;

// The least of a window: below two periods an entry, and past them each period more adds the least of a cycle.
pub fn at(filled: &[u32; FILLING], period: u16, cycle: u32, window: u32) -> u32
    requires in_bounds { (1 ≤ period) × (period ≤ 1024) × (cycle ≤ 1024) × (window ≤ 2000000) }
    requires filled_in_bounds { (w : ℕ) → w < 2 * period → entry filled.now w ≤ 2048 }
    ensures { result ≡ supply_at filled.now period cycle window }
{
    let turn = u32::from(period);
    if window < 2 * turn {
        return filled[window as usize];
    }
    let past = window - turn;
    filled[(turn + past % turn) as usize] + past / turn * cycle
}
