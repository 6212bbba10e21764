// The bounds of a well-formed table, by its columns.
ghost use Rattle.std.specs.Prelude.{◌≡◌, ◌-◌, ◌*◌, ◌≤◌, ◌<◌, length};
ghost use Rattle.theory.specs.Cycles.{system, cycle_least, least_of};
ghost use Rattle.table.specs.Table.{tree_of};
ghost use Rattle.slice.specs.Changes.{Becomes};
ghost use Rattle.corners.specs.Trees.{tree_from};
ghost use Rattle.bounds.specs.Flagged.{asks, flagged};

use corners::lent::LentTree;
use table::{WellFormedTable, columns};

// Whose ticks are asked for: the queue's own, or those of all others.
#[derive(Clone, Copy)]
pub struct Asked<'a> {
    pub table: WellFormedTable<'a>,
    pub queue: usize,
    pub own: bool,
    ghost some_queue: { 1 ≤ queue },
}

impl Asked<'_> {
    // The table's columns, with the queue's locations flagged.
    fn lend(&self) -> LentTree
        ensures tree { tree_from result ≡ flagged self.now.table.table.now self.now.queue }
        ensures own { result.pass ≡ self.now.own }
    {
        let table = self.table.table;
        LentTree {
            parents: columns::parents(table),
            ticks: columns::ticks(table),
            flags: columns::flags(table, self.queue),
            pass: self.own,
            locations: table.locations,
            period: u32::from(table.period),
        }
    }

    // The least of every window below two periods.
    pub fn leasts(&self, out: &mut [u32])
        requires { 2 * self.now.table.table.now.period ≤ length out.old }
        ensures { let t = self.now.table.table.now in Becomes (2 * t.period - 1) (least_of (system (tree_of t)) (asks self.now.own self.now.queue)) out.old out.new }
    {
        filling::leasts(out, &self.lend());
    }

    // The least of a cycle.
    pub fn cycle(&self) -> u32
        ensures value { result ≡ cycle_least (system (tree_of self.now.table.table.now)) (asks self.now.own self.now.queue) }
        ensures upper_bound { result ≤ self.now.table.table.now.period }
    {
        filling::cycle_least(&self.lend())
    }

    // The least of one window.
    pub fn bound(&self, window: u32) -> u32
        requires { window ≤ 2000000 }
        ensures { result ≡ least_of (system (tree_of self.now.table.table.now)) (asks self.now.own self.now.queue) window }
    {
        let mut out = [0u32; supply::FILLING];
        self.leasts(&mut out);
        supply::at(&out, self.table.table.period, self.cycle(), window)
    }
}
