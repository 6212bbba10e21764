// Questions about a record: its table read and written again, and one field's payload.
use crate::answers::answer;
use std::io;
use table::{Refusal, Table};
use words::words;

// The bytes lent to the writer, and what they hold before.
pub const LENT: usize = 2048;

const FILLED: u8 = 7;

// The payload of field k, after the numbers beside it; the part of a refused question is empty.
pub fn field(rt: &impl Print, bytes: &[u8], k: usize) -> io::Result<()> {
    let Refusal { number, place } = record::field_refusal(bytes, k);
    if number == 0 {
        print!(rt; " accepted")?;
    } else {
        print!(rt; " refused {number} {place}")?;
    }
    words(rt, record::field(bytes, k))
}

// Has the writer put the record to the front, and left what lies past it as it was?
fn is_written(bytes: &[u8], out: &[u8], length: usize) -> bool {
    out.split_at_checked(length).is_some_and(|(front, past)| {
        front == bytes && past.iter().all(|byte| *byte == FILLED)
    })
}

// Writes into the first `room` bytes of those lent.
pub fn lend(rt: &impl Print, bytes: &[u8], table: Table, room: usize) -> io::Result<()> {
    let mut lent = [FILLED; LENT];
    if LENT < room {
        return Ok(());
    }
    let out = &mut lent[..room];
    let written = writer::write(table, out);
    answer(rt, written.map(|_| "accepted"))?;
    if written.is_ok_and(|length| is_written(bytes, out, length)) {
        print!(rt; " written")?;
    }
    Ok(())
}
