// The words that programs print, each after a blank, and what they read.
#![tactic(auto)]

ghost use Rattle.std.specs.Prelude.{◌<◌, ◌≤◌, length, take, IfOk};
ghost use Rattle.std.specs.Io.KnownBytes.{Consumes, IsAtEnd};

use std::fmt::Display;
use std::io;
use std::io::Read;

// Reads until the space is full or the input ends, and returns how many bytes it put at the front.
pub fn read_full<R: Read>(input: &mut R, space: &mut [u8]) -> io::Result<usize>
    ensures within { IfOk result (λ n. n ≤ length space.new) }
    ensures front { IfOk result (λ n. Consumes (R.remaining input.old) (R.remaining input.new) (take n space.new)) }
    ensures whole { IfOk result (λ n. n < length space.new → IsAtEnd (R.remaining input.new)) }
{
    let mut done: usize = 0;
    while done < space.len() {
        let n = input.read(&mut space[done..])?;
        if n == 0 {
            return Ok(done);
        }
        done += n;
    }
    Ok(done)
}

pub fn word<T: Display + Drop>(rt: &impl Print, value: T) -> io::Result<()> {
    print!(rt; " {value}")
}

pub fn words<T: Display>(rt: &impl Print, values: &[T]) -> io::Result<()> {
    for value in values {
        word(rt, value)?;
    }
    Ok(())
}
