// Own ticks that pass, and the sum of a column along each path, into lent columns: they are large for a stack. Each is filled by a
// loop of one line: a closure for one common loop, with what it returns, would be longer.
ghost use Rattle.std.specs.Prelude.{◌≡◌, ◌+◌, ◌*◌, ◌<◌, ◌≤◌, length};
ghost use Rattle.laws.specs.Test.{bit};
ghost use Rattle.table.specs.Columns.{entry};
ghost use Rattle.slice.specs.Changes.{Entries};
ghost use Rattle.corners.specs.Lent.{own_over, before_over, Kept, Below};

use crate::lent::LentTree;
use table::Table;

pub fn owns(tree: &LentTree, out: &mut [u16; Table::LOCATIONS])
    ensures { Entries 128 (own_over tree.now.ticks tree.now.flags (bit tree.now.pass)) out.new }
{
    for v in 0..Table::LOCATIONS {
        out[v] = tree.own(v);
    }
}

// The sum over v's path without v: a parent's number is below its child's, and the sums of the first locations are kept.
fn before(tree: &LentTree, column: &[u16; Table::LOCATIONS], sums: &[u32], v: usize) -> u32
    requires in_bounds { v < tree.now.locations }
    requires kept { Kept tree.now.parents column.now sums.now (length sums.now) }
    ensures value { result ≡ before_over tree.now.parents column.now v }
    ensures upper_bound { result ≤ 65535 * v }
{
    if v < sums.len() {
        return sums[v];
    }
    if v == 0 {
        return 0;
    }
    let parent = tree.parent(v);
    before(tree, column, sums, parent) + u32::from(column[parent])
}

pub fn sums(tree: &LentTree, column: &[u16; Table::LOCATIONS], out: &mut [u32; Table::LOCATIONS])
    ensures { Entries tree.now.locations (before_over tree.now.parents column.now) out.new }
{
    for v in 0..tree.locations {
        out[v] = before(tree, column, &out[..v], v);
    }
}

// The tick of a cycle after each location's last.
pub fn ends(tree: &LentTree, begins: &[u32; Table::LOCATIONS], out: &mut [u32; Table::LOCATIONS])
    requires { Below tree.now.locations 1024 begins.now }
    ensures { Entries tree.now.locations (λ v. entry begins.now v + entry tree.now.ticks v) out.new }
{
    for v in 0..tree.locations {
        out[v] = begins[v] + u32::from(tree.ticks[v]);
    }
}
