// A step's answer and a state as words, each after a blank.
use job::Job;
use runner::{Granted, State};
use std::io;
use table::Refused;

// The queue granted, the task served and the late set, or the refusal.
pub fn step(rt: &impl Print, given: Result<Granted, Refused>) -> io::Result<()> {
    match given {
        Ok(
            Granted {
                queue,
                task: Some(task),
                late,
            },
        ) => print!(rt; " {queue} {task} {late},"),
        Ok(
            Granted {
                queue,
                task: None,
                late,
            },
        ) => print!(rt; " {queue} - {late},"),
        Err(refused) => print!(rt; " {refused},"),
    }
}

// A job of zeros is left out.
fn job(rt: &impl Print, i: usize, job: Job) -> io::Result<()> {
    if job == Job::NONE {
        return Ok(());
    }
    let Job {
        since,
        remaining,
        left,
    } = job;
    print!(rt; " job {i} {since} {remaining} {left}")
}

pub fn state(rt: &impl Print, state: &State) -> io::Result<()> {
    print!(rt; " at {} {}", state.location, state.done)?;
    for (i, entry) in state.jobs.iter().enumerate() {
        job(rt, i, *entry)?;
    }
    Ok(())
}
