// The least of every window below two periods, from a lent tree.
#![tactic(auto)]

ghost use Rattle.std.specs.Prelude.{◌≡◌, ◌-◌, ◌*◌, ◌≤◌, length};
ghost use Rattle.theory.specs.Cycles.{system, cycle_least, least_of};
ghost use Rattle.slice.specs.Changes.{Becomes};
ghost use Rattle.corners.specs.Trees.{tree_from, asked_by};

use corners::columns::Columns;
use corners::lent::LentTree;
use corners::rest;
use slice::passes;
use table::Table;

mod walks; // walks.rt: the points that lower the slice

pub fn leasts(out: &mut [u32], tree: &LentTree)
    requires { 2 * tree.now.period ≤ length out.old }
    ensures { Becomes (2 * tree.now.period - 1) (least_of (system (tree_from tree.now)) (asked_by tree.now)) out.old out.new }
{
    let mut columns = Columns::EMPTY;
    columns.fill(tree);
    let part = &mut out[..2 * tree.period as usize];
    passes::ramp(part);
    walks::corners(part, tree, &columns);
    passes::settle(part);
}

// The least of a whole cycle.
pub fn cycle_least(tree: &LentTree) -> u32
    ensures { result ≡ cycle_least (system (tree_from tree.now)) (asked_by tree.now) }
{
    let mut rests = [0; Table::LOCATIONS];
    rest::rests(tree, &mut rests);
    rests[0]
}
