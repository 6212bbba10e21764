// Guards: the child that a value leads to, gaps, and overlaps (docs/RULES.md, Locations and guards).
#![tactic(auto)]

ghost use Rattle.std.specs.Prelude.{◌≡◌, ℕ, suc, ◌-◌, ◌<◌, ◌≤◌, ◌&&◌, leb};
ghost use Rattle.theory.proofs.Guards.{SomeValue};
ghost use Rattle.guards.specs.Children.{guards_over};

use table::{Table, columns, paths};

// What the guards of a table's locations are read from: parents, lows and highs of n locations, each guard with some
// value. One array for each column: a look for children reads the parents alone.
#[derive(Clone, Copy)]
pub struct Guards {
    pub parents: [u8; Table::LOCATIONS],
    lows: [u16; Table::LOCATIONS],
    highs: [u16; Table::LOCATIONS],
    pub n: usize,
    ghost in_bounds: { (1 ≤ n) × (n ≤ 128) },
    ghost some_value: { SomeValue (guards_over parents lows highs n) },
}

fn holds(low: u16, high: u16, x: u16) -> bool
    ensures { result ≡ (leb low x && leb x high) }
{
    low <= x && x <= high
}

// How many values a guard holds.
fn width(low: u16, high: u16) -> u32
    requires { low ≤ high }
    ensures { (result ≡ suc high - low) × (result ≤ 65536) }
{
    u32::from(high - low) + 1
}

impl Guards {
    ghost use Rattle.std.specs.Prelude.{not, T};
    ghost use Rattle.theory.specs.Guards.{onto};
    ghost use Rattle.table.specs.Columns.{leaf_over};
    ghost use Rattle.table.specs.Table.{location_at};
    ghost use Rattle.table.specs.Ranged.{HighInWidth};
    ghost use Rattle.guards.specs.Children.{gap_in, overlap_in, widths_in};
    ghost use Rattle.guards.specs.Lent.{guards_of, ReadFrom};

    pub fn of(table: &Table) -> Guards
        requires in_bounds { (1 ≤ table.now.locations) × (table.now.locations ≤ 128) }
        requires some_value { (v : ℕ) → 0 < v → v < table.now.locations → (location_at table.now v).low ≤ (location_at table.now v).high }
        requires in_width { HighInWidth table.now }
        ensures { ReadFrom table.now result }
    {
        Guards {
            parents: columns::parents(table),
            lows: columns::lows(table),
            highs: columns::highs(table),
            n: table.locations,
        }
    }

    pub fn is_leaf(&self, v: usize) -> bool
        requires { v < 128 }
        ensures { result ≡ leaf_over self.now.parents self.now.n v }
    {
        paths::is_leaf(&self.parents, self.n, v)
    }

    // The first child of v whose guard holds x, or 0, as the definition says it: the root is nobody's child, and follows where
    // there is no child.
    pub fn onto(&self, v: usize, x: u16) -> usize
        requires { v < 128 }
        ensures { result ≡ onto (guards_of self.now) v x }
    {
        let name = v as u8;
        for u in 1..self.n {
            if self.parents[u] == name && holds(self.lows[u], self.highs[u], x) {
                return u;
            }
        }
        0
    }

    // GAP at v: some value is in no child's guard. Each value below x is in one, and the child that holds x leads past its own high.
    pub fn has_gap(&self, v: usize) -> bool
        requires { v < 128 }
        ensures { result ≡ gap_in (guards_of self.now) v }
    {
        if self.is_leaf(v) {
            return false;
        }
        let mut x: u16 = 0;
        loop {
            let u = self.onto(v, x);
            if u == 0 {
                return true;
            }
            let high = self.highs[u];
            if high == Table::TOP {
                return false;
            }
            x = high + 1;
        }
    }

    // The sum of the widths of the guards of v's children. The width comes before the test, so that the loop compiles to vector code.
    fn widths(&self, v: usize) -> u32
        requires { v < 128 }
        ensures { result ≡ widths_in (guards_of self.now) v self.now.n }
    {
        let name = v as u8;
        let mut sum: u32 = 0;
        for u in 1..self.n {
            let held = width(self.lows[u], self.highs[u]);
            if self.parents[u] == name {
                sum += held;
            }
        }
        sum
    }

    // OVERLAP at v: some value is in two children's guards. Where there is no gap, each value counts once, and once more for each
    // further guard.
    pub fn has_overlap(&self, v: usize) -> bool
        requires in_bounds { v < 128 }
        requires no_gap { T (not (gap_in (guards_of self.now) v)) }
        ensures { result ≡ overlap_in (guards_of self.now) v }
    {
        Table::VALUES < self.widths(v)
    }
}
