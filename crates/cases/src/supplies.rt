// Questions about the supply of a queue: cycle and filling.
use bounds::CycleTicks;
use std::io;
use table::Table;
use words::{word, words};

// The entries lent for a filling, and what they hold before.
const LENT: usize = 2049;

const FILLED: u32 = 7;

// Two before the end of the longest filling.
pub const LATE: usize = 2046;

pub fn cycle(rt: &impl Print, table: Table, queue: u32) -> io::Result<()> {
    match bounds::cycle(table, queue) {
        Ok(CycleTicks { least, most }) => print!(rt; " {least} {most}"),
        Err(refused) => word(rt, refused),
    }
}

// The filling in the first `room` entries of those lent, printed from `from` on: beside a refusal too, where nothing is written.
pub fn fill(rt: &impl Print, table: Table, queue: u32, room: usize, from: usize) -> io::Result<()> {
    let mut lent = [FILLED; LENT];
    if LENT < room {
        return Ok(());
    }
    let out = &mut lent[..room];
    if let Err(refused) = bounds::fill(table, queue, out) {
        word(rt, refused)?;
    }
    words(rt, out.get(from..).unwrap_or_default())
}
