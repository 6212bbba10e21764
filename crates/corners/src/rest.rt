// From each location's first tick to the cycle's end: the least that passes.
ghost use Rattle.std.specs.Prelude.{◌≡◌, ◌+◌, ◌≤◌, ltb};
ghost use Rattle.laws.specs.Test.{pick};
ghost use Rattle.theory.specs.Points.{rest};
ghost use Rattle.slice.specs.Changes.{Entries};
ghost use Rattle.corners.specs.Trees.{tree_from, asked_by};

use crate::lent::LentTree;
use table::Table;

// A location's own ticks and the least below it, where there is one.
fn joined(own: u16, below: u32, period: u32) -> u32
    requires { below ≤ 65536 }
    ensures { result ≡ own + pick (ltb below period) below 0 }
{
    let least = if below < period { below } else { 0 };
    u32::from(own) + least
}

// Children come before their parents, from the last location to the root. Until a child is met an entry is the period, which no child's
// least is: an Option would take eight bytes in place of four, and a test for each child.
pub fn rests(tree: &LentTree, out: &mut [u32; Table::LOCATIONS])
    ensures { Entries tree.now.locations (rest (tree_from tree.now) (asked_by tree.now)) out.new }
{
    *out = [tree.period; Table::LOCATIONS];
    for v in (0..tree.locations).rev() {
        let least = joined(tree.own(v), out[v], tree.period);
        out[v] = least;
        if 0 < v {
            let parent = tree.parent(v);
            out[parent] = out[parent].min(least);
        }
    }
}
