// A lent tree: a table's columns, with flags for its queues.
ghost use Rattle.std.specs.Prelude.{◌≡◌, ◌<◌};
ghost use Rattle.laws.specs.Test.{bit};
ghost use Rattle.theory.specs.Grants.{is};
ghost use Rattle.table.specs.Columns.{entry};
ghost use Rattle.corners.specs.Lent.{Lent, flag, own_over};

use table::Table;

// A location passes where its flag is the one asked for. One array for each column, as in `Columns`.
#[derive(Drop)]
pub struct LentTree {
    pub parents: [u8; Table::LOCATIONS],
    pub ticks: [u16; Table::LOCATIONS],
    pub flags: [bool; Table::LOCATIONS],
    pub pass: bool,
    pub locations: usize,
    pub period: u32,
    ghost lent: { Lent parents ticks flags locations period },
}

impl LentTree {
    pub fn parent(&self, v: usize) -> usize
        requires { (0 < v) × (v < self.now.locations) }
        ensures value { result ≡ entry self.now.parents v }
        ensures falls { result < v }
    {
        usize::from(self.parents[v])
    }

    pub fn passes(&self, v: usize) -> bool
        requires { v < 128 }
        ensures { result ≡ is (bit self.now.pass) (flag self.now.flags v) }
    {
        self.flags[v] == self.pass
    }

    // v's own ticks where v passes, else 0.
    pub fn own(&self, v: usize) -> u16
        requires { v < 128 }
        ensures { result ≡ own_over self.now.ticks self.now.flags (bit self.now.pass) v }
    {
        if self.passes(v) { self.ticks[v] } else { 0 }
    }
}
