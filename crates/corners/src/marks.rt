// Marks at the corners: where the windows that decide every bound start and end (the theory's Points).
ghost use Rattle.std.specs.Prelude.{◌≡◌, ◌<◌};
ghost use Rattle.laws.specs.Test.{bit};
ghost use Rattle.corners.specs.Lent.{Marks, opens_over, closes_over};

use crate::lent::LentTree;
use table::Table;

// A corner starts at the root, or at a location that does not pass below one that does.
fn opens_at(tree: &LentTree, v: usize) -> bool
    requires { v < tree.now.locations }
    ensures { result ≡ opens_over tree.now.parents tree.now.flags (bit tree.now.pass) v }
{
    v == 0 || !tree.passes(v) && tree.passes(tree.parent(v))
}

// A loop of one line, as in sums.rt.
pub fn opens(tree: &LentTree, out: &mut [bool; Table::LOCATIONS])
    ensures { Marks tree.now.locations (opens_over tree.now.parents tree.now.flags (bit tree.now.pass)) out.new }
{
    for v in 0..tree.locations {
        out[v] = opens_at(tree, v);
    }
}

// A corner ends at a location that does not pass and whose children all do: one that does not takes its parent's mark away. What ends with
// the cycle has no mark, since it is told by the least rest.
pub fn closes(tree: &LentTree, ends: &[u32; Table::LOCATIONS], out: &mut [bool; Table::LOCATIONS])
    ensures { Marks tree.now.locations (closes_over tree.now.parents tree.now.flags ends.now (bit tree.now.pass) tree.now.locations tree.now.period) out.new }
{
    *out = [false; Table::LOCATIONS];
    for v in 0..tree.locations {
        if !tree.passes(v) {
            out[v] = ends[v] < tree.period;
            if 0 < v {
                out[tree.parent(v)] = false;
            }
        }
    }
}
