// Leaves, and the sum of the ticks on a path, over lent columns.
ghost use Rattle.std.specs.Prelude.{◌≡◌, ◌+◌, ◌*◌, ◌<◌, ◌≤◌};
ghost use Rattle.laws.proofs.Climb.{Falls};
ghost use Rattle.table.specs.Columns.{entry, leaf_over, end_over};

use crate::Table;

// Does none of n locations but the root, which is nobody's child, name v as its parent?
pub fn is_leaf(parents: &[u8; Table::LOCATIONS], n: usize, v: usize) -> bool
    requires { (1 ≤ n) × (n ≤ 128) × (v < 128) }
    ensures { result ≡ leaf_over parents.now n v }
{
    let name = v as u8;
    !parents[1..n].contains(&name)
}

// The sum of the ticks on v's path: a parent's number is below its child's.
pub fn path_ticks(
    parents: &[u8; Table::LOCATIONS],
    ticks: &[u16; Table::LOCATIONS],
    v: usize,
) -> u32
    requires { (v < 128) × Falls (entry parents.now) (v + 1) }
    ensures value { result ≡ end_over parents.now ticks.now v }
    ensures upper_bound { result ≤ 65535 * (v + 1) }
{
    let own = u32::from(ticks[v]);
    if v == 0 {
        return own;
    }
    let parent = usize::from(parents[v]);
    path_ticks(parents, ticks, parent) + own
}
