// Every question about a table that is not well formed: the table's refusal comes before any other.
use crate::answers::answer;
use crate::{runs, supplies};
use std::io;
use table::Table;

// No queue, and above every amount.
const QUEUE: u32 = 0;

const AMOUNT: u32 = 2_000_001;

// The state and the steps are not lawful for the table either.
pub fn all(rt: &impl Print, table: Table, steps: &[u8]) -> io::Result<()> {
    answer(rt, bounds::least(table, QUEUE, AMOUNT))?;
    answer(rt, bounds::most(table, QUEUE, AMOUNT))?;
    supplies::cycle(rt, table, QUEUE)?;
    supplies::fill(rt, table, QUEUE, 0, 0)?;
    answer(rt, verdict::demand(table, QUEUE, AMOUNT))?;
    answer(rt, verdict::verdict(table, QUEUE))?;
    answer(rt, verdict::wait(table, QUEUE, AMOUNT))?;
    runs::from_fresh(rt, table, steps)?;
    runs::from_given(rt, table, steps)
}
