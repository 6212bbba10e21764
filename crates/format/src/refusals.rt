// The tests at one field, in the order of docs/RULES.md: three bytes left; tag, length and order; count; payload short.
ghost use Rattle.std.specs.Prelude.{◌≡◌, ◌+◌, ◌≤◌, length, leb, ltb, IfOk};
ghost use Rattle.laws.specs.Test.{pick};
ghost use Rattle.format.specs.Tests.{is_field, is_location, is_task, header_number, field_number, number_or_0, names_location};

use crate::bytes::number16;
use table::{Reason, Table};

// What a field after the header holds.
#[derive(Clone, Copy, Debug, PartialEq, Eq)]
pub enum Kind {
    Location,
    Task,
}

// Has the field at `at` this tag and length? A field is told by its place in the whole record, as the definitions tell it.
fn is_field(s: &[u8], at: usize, tag: u8, len: u16) -> bool
    requires { at + 3 ≤ length s.now }
    ensures { result ≡ is_field s.now at tag len }
{
    s[at] == tag && number16(&s[at + crate::LENGTH..]) == len
}

// A location may come before any task.
pub fn is_location(s: &[u8], at: usize, tasks: usize) -> bool
    requires { at + 3 ≤ length s.now }
    ensures { result ≡ is_location s.now at tasks }
{
    is_field(s, at, crate::LOCATION_TAG, crate::LOCATION_LENGTH) && tasks == 0
}

// A task may come after a location.
fn is_task(s: &[u8], at: usize, locations: usize) -> bool
    requires { at + 3 ≤ length s.now }
    ensures { result ≡ is_task s.now at locations }
{
    is_field(s, at, crate::TASK_TAG, crate::TASK_LENGTH) && 0 < locations
}

// Is there a whole header?
#[tactic(auto, unfolding(crate::specs::Tests::header_number))]
pub fn whole_header(s: &[u8]) -> Result<(), Reason>
    ensures { number_or_0 result ≡ header_number s.now }
{
    if s.len() < crate::PAYLOAD {
        return Err(Reason::Cut);
    }
    if !is_field(s, 0, crate::HEADER_TAG, crate::HEADER_LENGTH) {
        return Err(Reason::Field);
    }
    if s.len() < crate::HEADER_FIELD {
        return Err(Reason::Cut);
    }
    Ok(())
}

// One more of its kind, with so many bytes left: count before a short payload.
fn one_more(count: usize, most: usize, left: usize, whole: usize) -> Result<(), Reason>
    ensures { number_or_0 result ≡ pick (leb most count) 3 (pick (ltb left whole) 1 0) }
{
    if most <= count {
        Err(Reason::Count)
    } else if left < whole {
        Err(Reason::Cut)
    } else {
        Ok(())
    }
}

// Is there a whole location or task at `at`, after so many of each, and which of the two?
#[tactic(auto, unfolding(crate::specs::Tests::field_number))]
pub fn whole_field(s: &[u8], at: usize, locations: usize, tasks: usize) -> Result<Kind, Reason>
    requires { at ≤ length s.now }
    ensures refused { number_or_0 result ≡ field_number s.now at locations tasks }
    ensures kind { IfOk result (λ k. names_location k ≡ is_location s.now at tasks) }
{
    let left = s.len() - at;
    if left < crate::PAYLOAD {
        return Err(Reason::Cut);
    }
    if is_location(s, at, tasks) {
        one_more(locations, Table::LOCATIONS, left, crate::LOCATION_FIELD)?;
        return Ok(Kind::Location);
    }
    if is_task(s, at, locations) {
        one_more(tasks, Table::TASKS, left, crate::TASK_FIELD)?;
        return Ok(Kind::Task);
    }
    Err(Reason::Field)
}
