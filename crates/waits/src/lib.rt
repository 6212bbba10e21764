// The wait: the smallest window whose least supply reaches a number of ticks (docs/RULES.md, Demand, verdict and wait).
#![tactic(auto)]

ghost use Rattle.std.specs.Prelude.{◌≤◌, length};
ghost use Rattle.theory.specs.Grants.{is};
ghost use Rattle.theory.specs.Tree.{grants};
ghost use Rattle.theory.specs.Verdict.{Wait};
ghost use Rattle.table.specs.Table.{tree_of};
ghost use Rattle.waits.specs.Reaches.{Reaches};

use supply::queues::Supply;

// The first of the windows whose least reaches `ticks`, or their number where there is none, as `Reaches` says it.
fn reach(leasts: &[u32], ticks: u32) -> usize
    ensures { Reaches leasts.now (length leasts.now) ticks result }
{
    leasts
        .iter()
        .position(|least| ticks <= *least)
        .unwrap_or(leasts.len())
}

// From one period on, a period more is the wait for a cycle least more. So whole cycles are taken off first.
pub fn longest(supply: &Supply, ticks: u32) -> u32
    requires in_bounds { (1 ≤ supply.now.cycle) × (1 ≤ ticks) × (ticks ≤ 65535) }
    ensures { Wait (grants (tree_of supply.now.table.now.table.now)) (is supply.now.queue) ticks result }
{
    let period = u32::from(supply.table.table.period);
    let turn = period as usize;
    let filled = supply.filled;
    let past = ticks.saturating_sub(filled[turn]);
    let cycles = past.saturating_sub(1) / supply.cycle;
    let near = reach(&filled[..2 * turn], ticks - cycles * supply.cycle) as u32;
    near + cycles * period
}
