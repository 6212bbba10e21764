// The columns of a lent tree: a mark or a number for each location.
ghost use Rattle.corners.specs.Trees.{Made};

use crate::lent::LentTree;
use crate::{marks, rest, sums};
use table::Table;

// Where corners start and end, the tick of a cycle at each location's first tick and after its last, the ticks that pass before it, and the
// least rest of the cycle. One array each, since the loops over all pairs read few of them, and a column of marks is two cache lines.
#[derive(Drop)]
pub struct Columns {
    pub opens: [bool; Table::LOCATIONS],
    pub closes: [bool; Table::LOCATIONS],
    pub begins: [u32; Table::LOCATIONS],
    pub ends: [u32; Table::LOCATIONS],
    pub counts: [u32; Table::LOCATIONS],
    pub rests: [u32; Table::LOCATIONS],
}

impl Columns {
    // Nothing yet. A place for all columns is lent to `fill`, since each move of so large a value takes its size in stack once more.
    pub const EMPTY: Columns = Columns {
        opens: [false; Table::LOCATIONS],
        closes: [false; Table::LOCATIONS],
        begins: [0; Table::LOCATIONS],
        ends: [0; Table::LOCATIONS],
        counts: [0; Table::LOCATIONS],
        rests: [0; Table::LOCATIONS],
    };

    pub fn fill(&mut self, tree: &LentTree)
        ensures { Made tree.now self.new }
    {
        let mut owns = [0; Table::LOCATIONS];
        sums::sums(tree, &tree.ticks, &mut self.begins);
        sums::ends(tree, &self.begins, &mut self.ends);
        sums::owns(tree, &mut owns);
        sums::sums(tree, &owns, &mut self.counts);
        marks::opens(tree, &mut self.opens);
        marks::closes(tree, &self.ends, &mut self.closes);
        rest::rests(tree, &mut self.rests);
    }
}
