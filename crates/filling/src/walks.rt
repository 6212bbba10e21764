// Every corner point lowers its entry of the slice: across a cycle's end for each pair, with a whole cycle more by one pass over the
// slice, and within a cycle by walking up the parents.
ghost use Rattle.std.specs.Prelude.{◌+◌, ◌-◌, ◌<◌, length};
ghost use Rattle.slice.specs.Changes.{Lowers, Until};
ghost use Rattle.filling.specs.Sets.{Between, Upward, Inner, Onward, Across, Corners};

use corners::columns::Columns;
use corners::lent::LentTree;
use slice::points;

// The point that starts with a and ends with v, where a corner starts at a.
fn between(out: &mut [u32], columns: &Columns, a: usize, v: usize)
    requires { (a < 128) × (v < 128) }
    ensures { Lowers (length out.old - 1) (Between columns.now a v) out.old out.new }
{
    if columns.opens[a] {
        // Sums along a path never fall, so nothing saturates where a is v or above v; the contract asks for no such fact.
        let length = columns.ends[v].saturating_sub(columns.begins[a]);
        let count = columns.counts[v].saturating_sub(columns.counts[a]);
        points::lower(out, length as usize, u64::from(count));
    }
}

// The points that end with v and start at a or above a.
fn upward(out: &mut [u32], tree: &LentTree, columns: &Columns, a: usize, v: usize)
    requires { (a < tree.now.locations) × (v < tree.now.locations) }
    ensures { Lowers (length out.old - 1) (Upward tree.now columns.now a v) out.old out.new }
{
    between(out, columns, a, v);
    if a != 0 {
        upward(out, tree, columns, tree.parent(a), v);
    }
}

// The points within a cycle. A location at which a corner ends has no own ticks that pass.
fn inner(out: &mut [u32], tree: &LentTree, columns: &Columns)
    ensures { Lowers (length out.old - 1) (Until (Inner tree.now columns.now) tree.now.locations) out.old out.new }
{
    for v in 0..tree.locations {
        if columns.closes[v] {
            upward(out, tree, columns, v, v);
        }
    }
}

// The points that begin with a location before a cycle's end, and end after it.
fn onward(out: &mut [u32], tree: &LentTree, columns: &Columns, ahead: u32, count: u32)
    ensures { Lowers (length out.old - 1) (Until (Onward columns.now ahead count) tree.now.locations) out.old out.new }
{
    for v in 0..tree.locations {
        if columns.closes[v] {
            let length = ahead as usize + columns.ends[v] as usize;
            let count = u64::from(count) + u64::from(columns.counts[v]);
            points::lower(out, length, count);
        }
    }
}

// The points to a cycle's end, and across it.
fn across(out: &mut [u32], tree: &LentTree, columns: &Columns)
    ensures { Lowers (length out.old - 1) (Until (Across tree.now columns.now) tree.now.locations) out.old out.new }
{
    for a in 0..tree.locations {
        if columns.opens[a] {
            // No location begins after the period, so nothing saturates here either.
            let ahead = tree.period.saturating_sub(columns.begins[a]);
            let count = columns.rests[a];
            points::lower(out, ahead as usize, u64::from(count));
            onward(out, tree, columns, ahead, count);
        }
    }
}

// All corner points. Those within a cycle come last, since no cycle fits between their ends.
pub fn corners(out: &mut [u32], tree: &LentTree, columns: &Columns)
    requires { 0 < length out.old }
    ensures { Corners tree.now columns.now (length out.old - 1) out.old out.new }
{
    across(out, tree, columns);
    points::stretch(out, tree.period as usize, columns.rests[0]);
    inner(out, tree, columns);
}
