// Prints the listing of the record on standard input (docs/RULES.md, The listing).
#![tactic(auto)]

use rows::Row;
use std::io;
use table::Table;

mod rows; // rows.rt: the numbers of a line

// Longer than any record, so that what is cut off does not count.
const SPACE: usize = 4096;

// Beyond the horizon there is no verdict, and the line says so.
fn line(rt: &impl Print, table: Table, queue: u32) -> io::Result<()> {
    let Row {
        least,
        most,
        verdict,
    } = rows::of_queue(table, queue);
    match verdict {
        Ok(verdict) => println!(rt; "queue {queue} {least} {most} {verdict}"),
        Err(_) => println!(rt; "queue {queue} {least} {most} horizon"),
    }
}

fn lines(rt: &impl Print, table: Table) -> io::Result<()> {
    println!(rt;
        "tree {} {} {} {}",
        table.locations, table.queues, table.period, table.tasks
    )?;
    for queue in 1..=u32::from(table.queues) {
        line(rt, table, queue)?;
    }
    Ok(())
}

fn main(rt: HostRuntime) -> io::Result<()> {
    let mut space = [0u8; SPACE];
    let n = words::read_full(&mut rt.stdin(), &mut space)?;
    match record::read(&space[..n]) {
        Ok(table) => lines(&rt, table),
        Err(refused) => println!(rt; "{refused}"),
    }
}
