// Answers as words.
use std::fmt::Display;
use std::io;
use table::Refused;
use words::word;

// The answer, or the refusal.
pub fn answer<T: Display + Drop>(rt: &impl Print, answer: Result<T, Refused>) -> io::Result<()> {
    match answer {
        Ok(value) => word(rt, value),
        Err(refused) => word(rt, refused),
    }
}
