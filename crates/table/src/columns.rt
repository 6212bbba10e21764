// One array for each field that is read along the tree, to be lent in place of the table.
ghost use Rattle.std.specs.Prelude.{◌≡◌, map};
ghost use Rattle.table.specs.declared.Location.{Location};
ghost use Rattle.table.specs.Columns.{parent_column, ticks_column, low_column, high_column, flag_column};

use crate::{Location, Table};

// What each location gives. A loop and not the array's `map`, whose copies of all locations take 4 KB of stack.
fn column<T: Copy, F: Fn(Location) -> T>(table: &Table, first: T, gives: F) -> [T; Table::LOCATIONS]
    requires { F.IsAlwaysCallable gives }
    ensures { (f : Location → T) → ((l : Location) (x : T) → F.post gives l x → x ≡ f l) → result ≡ map f table.now.location }
{
    let mut column = [first; Table::LOCATIONS];
    for v in 0..Table::LOCATIONS {
        column[v] = gives(table.location[v]);
    }
    column
}

pub fn parents(table: &Table) -> [u8; Table::LOCATIONS]
    ensures { result ≡ parent_column table.now }
{
    column(table, 0, |l| l.parent)
}

pub fn ticks(table: &Table) -> [u16; Table::LOCATIONS]
    ensures { result ≡ ticks_column table.now }
{
    column(table, 0, |l| l.ticks)
}

pub fn lows(table: &Table) -> [u16; Table::LOCATIONS]
    ensures { result ≡ low_column table.now }
{
    column(table, 0, |l| l.low)
}

pub fn highs(table: &Table) -> [u16; Table::LOCATIONS]
    ensures { result ≡ high_column table.now }
{
    column(table, 0, |l| l.high)
}

// Which locations are the queue's.
pub fn flags(table: &Table, queue: usize) -> [bool; Table::LOCATIONS]
    ensures { result ≡ flag_column table.now queue }
{
    column(table, false, |l| usize::from(l.queue) == queue)
}
