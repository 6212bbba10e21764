// What the listing says of one queue, as numbers.
ghost use Rattle.listing.specs.Rows.{Says};

use bounds::CycleTicks;
use search::Verdict;
use table::{Refused, Table};

// Zeros where the cycle is refused, which no queue of a table that was read is. Where the table and the queue are right, a verdict is refused beyond the horizon alone.
#[derive(Clone, Copy)]
pub struct Row {
    pub least: u32,
    pub most: u32,
    pub verdict: Result<Verdict, Refused>,
}

pub fn of_queue(table: Table, queue: u32) -> Row
    ensures { Says table queue result }
{
    let CycleTicks { least, most } = bounds::cycle(table, queue).unwrap_or_default();
    let verdict = verdict::verdict(table, queue);
    Row {
        least,
        most,
        verdict,
    }
}
