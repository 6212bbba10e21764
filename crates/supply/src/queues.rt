// All that is known of a queue's supply: the least of each window below two periods, and of a cycle.
ghost use Rattle.std.specs.Prelude.{◌≡◌, ℕ, ◌*◌, ◌<◌, ◌≤◌};
ghost use Rattle.theory.specs.Grants.{is};
ghost use Rattle.theory.specs.Cycles.{system, cycle_least, least_of};
ghost use Rattle.table.specs.Table.{tree_of};
ghost use Rattle.table.specs.Columns.{entry};

use crate::FILLING;
use table::WellFormedTable;

// The filling is lent: it is too long to be copied.
#[derive(Clone, Copy)]
pub struct Supply<'a> {
    pub table: &'a WellFormedTable<'a>,
    pub queue: u32,
    pub filled: &'a [u32; FILLING],
    pub cycle: u32,
    pub ghost each_least: { (w : ℕ) → w < 2 * table.now.table.now.period → entry filled.now w ≡ least_of (system (tree_of table.now.table.now)) (is queue) w },
    pub ghost least_of_cycle: { cycle ≡ cycle_least (system (tree_of table.now.table.now)) (is queue) },
}

impl Supply<'_> {
    // The least of a window.
    pub fn at(&self, window: u32) -> u32
        requires in_bounds { window ≤ 2000000 }
        ensures { result ≡ least_of (system (tree_of self.now.table.now.table.now)) (is self.now.queue) window }
    {
        crate::at(self.filled, self.table.table.period, self.cycle, window)
    }
}
