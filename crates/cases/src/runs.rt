// Steps of the runner: for each the queue granted, the task served and the late set, and then the state.
//
// A step has 20 bytes: eight values (2 each) and the released set (4). A given state stands before its steps, in 195 bytes:
// location (1), done (2), and for each of 32 jobs since, remaining and left (2 each).
use crate::big_endian::numbers;
use crate::steps;
use job::Job;
use runner::{Granted, State};
use std::{array, io};
use table::{Refused, Table};
use words::word;

const STEP: usize = 20;

const STATE: usize = 195;

// Where its jobs begin.
const JOBS: usize = 3;

const JOB: usize = 6;

fn job(bytes: &[u8; JOB]) -> Job {
    let [since, remaining, left] = numbers::<3>(bytes);
    Job {
        since,
        remaining,
        left,
    }
}

fn state(bytes: &[u8; STATE]) -> State {
    let [location, high, low, ..] = *bytes;
    let (jobs, _) = bytes[JOBS..].as_chunks::<JOB>();
    State {
        location,
        done: u16::from_be_bytes([high, low]),
        jobs: array::from_fn(|i| job(&jobs[i])),
    }
}

fn step(state: &mut State, table: Table, bytes: &[u8; STEP]) -> Result<Granted, Refused> {
    let [.., a, b, c, d] = *bytes;
    state.step(table, numbers(bytes), u32::from_be_bytes([a, b, c, d]))
}

// The steps from a state on; a refused step leaves the state as it is, and the next one follows.
fn run(rt: &impl Print, table: Table, mut state: State, bytes: &[u8]) -> io::Result<()> {
    let (steps, _) = bytes.as_chunks::<STEP>();
    for bytes in steps {
        steps::step(rt, step(&mut state, table, bytes))?;
    }
    steps::state(rt, &state)
}

pub fn from_fresh(rt: &impl Print, table: Table, steps: &[u8]) -> io::Result<()> {
    match State::fresh(table) {
        Ok(state) => run(rt, table, state, steps),
        Err(refused) => word(rt, refused),
    }
}

pub fn from_given(rt: &impl Print, table: Table, bytes: &[u8]) -> io::Result<()> {
    match bytes.split_first_chunk() {
        Some((given, steps)) => run(rt, table, state(given), steps),
        None => Ok(()),
    }
}
