// Asks the questions of the files in data/ and prints a line for each: its name, then the answer in the words of docs/RULES.md, or
// `refused` with number and place.
#![tactic(auto)]

use answers::answer;
use questions::Question;
use std::rt::Files;
use std::{fs, io};
use table::{Reason, Refused, Table};
use words::word;

mod answers; // answers.rt: an answer or a refusal as words
mod big_endian; // big_endian.rt: the numbers of the data
mod questions; // questions.rt: the parts of a question
mod records; // records.rt: reading, writing and fields
mod refusals; // refusals.rt: every question about a table that is not well formed
mod runs; // runs.rt: steps of the runner
mod steps; // steps.rt: a step and a state as words
mod supplies; // supplies.rt: cycles and fillings

// Longer than any of the files.
const SPACE: usize = 65536;

fn with_locations(table: Table, locations: usize) -> Table {
    Table { locations, ..table }
}

// A question about the table that its record holds. The letters are the data's own, those of rust/cases/src/question.rs.
fn ask_table(rt: &impl Print, table: Table, question: Question) -> io::Result<()> {
    let Question {
        kind,
        first,
        second,
        steps,
        bytes,
        ..
    } = question;
    let n = first as usize;
    match kind {
        b'r' => records::lend(rt, bytes, table, n),
        b'l' => records::lend(rt, bytes, with_locations(table, n), records::LENT),
        b't' => records::lend(rt, bytes, Table { tasks: n, ..table }, records::LENT),
        b'L' => answer(rt, bounds::least(table, first, second)),
        b'M' => answer(rt, bounds::most(table, first, second)),
        b'C' => supplies::cycle(rt, table, first),
        b'F' => supplies::fill(rt, table, first, second as usize, 0),
        b'E' => supplies::fill(rt, table, first, second as usize, supplies::LATE),
        b'D' => answer(rt, verdict::demand(table, first, second)),
        b'V' => answer(rt, verdict::verdict(table, first)),
        b'W' => answer(rt, verdict::wait(table, first, second)),
        b'J' => refusals::all(rt, with_locations(table, n), steps),
        b'S' => runs::from_fresh(rt, table, steps),
        b'U' => runs::from_given(rt, table, steps),
        _ => Ok(()),
    }
}

fn ask(rt: &impl Print, question: Question) -> io::Result<()> {
    if question.kind == b'f' {
        return records::field(rt, question.bytes, question.first as usize);
    }
    match record::read(question.bytes) {
        Ok(table) => ask_table(rt, table, question),
        Err(refused) => word(rt, refused),
    }
}

fn line(rt: &impl Print, question: Question) -> io::Result<()> {
    rt.write_all(question.name)?;
    ask(rt, question)?;
    println!(rt)
}

// From question to question. What is cut before the end of its question is answered as no bytes are.
fn lines(rt: &impl Print, bytes: &[u8]) -> io::Result<()> {
    let mut rest = bytes;
    while let Some((question, after)) = questions::first(rest) {
        line(rt, question)?;
        rest = after;
    }
    if rest.is_empty() {
        return Ok(());
    }
    println!(rt; " {}", Refused::whole(Reason::Cut))
}

fn file(rt: &(impl Files + Print), path: &str) -> io::Result<()> {
    let mut input = fs::open(rt, path)?;
    let mut space = [0u8; SPACE];
    let n = words::read_full(&mut input, &mut space)?;
    lines(rt, &space[..n])
}

fn main(rt: HostRuntime) -> io::Result<()> {
    for path in ["records", "bounds", "verdicts", "steps"] {
        file(&rt, path)?;
    }
    Ok(())
}
