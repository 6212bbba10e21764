// Writing a table as its record (docs/RULES.md, The record; Reading, writing and the field question).
#![tactic(auto)]

ghost use Rattle.std.specs.Prelude.{◌≡◌, [], ◌∷◌, ◌+◌, ◌≤◌, length};
ghost use Rattle.std.proofs.lemmas.List.Edits.{sets};
ghost use Rattle.format.specs.Format.{high_byte, low_byte, header_field, location_field, task_field, location_fields, task_fields, record_of, location_offset, task_offset, record_length};
ghost use Rattle.writer.specs.Writing.{write_answered, write_of, written};

use format::offsets::{location_offset, record_length, task_offset};
use table::{Location, Reason, Refusal, Refused, Table, Task};

// What `write` answers, for C; length 0 beside a refusal.
#[repr(C)]
#[derive(Clone, Copy)]
pub struct WriteAnswer {
    pub refusal: Refusal,
    pub length: usize,
}

impl From<Result<usize, Refused>> for WriteAnswer {
    ghost from_gives = { λ r a. a ≡ write_answered r };

    fn from(answer: Result<usize, Refused>) -> WriteAnswer {
        WriteAnswer {
            refusal: Refusal::from(answer),
            length: answer.unwrap_or(0),
        }
    }
}

// A number of two bytes, the higher first. The contract says what changes in the slice, so the place in it is handed on too.
fn put_number(s: &mut [u8], at: usize, x: u16)
    requires { at + 2 ≤ length s.old }
    ensures { s.new ≡ sets s.old at (high_byte x ∷ low_byte x ∷ []) }
{
    let [high, low] = x.to_be_bytes();
    s[at] = high;
    s[at + 1] = low;
}

// What stands before a payload.
fn put_prefix(s: &mut [u8], at: usize, tag: u8, size: u16)
    requires { at + 3 ≤ length s.old }
    ensures { s.new ≡ sets s.old at (tag ∷ high_byte size ∷ low_byte size ∷ []) }
{
    s[at] = tag;
    put_number(s, at + 1, size);
}

fn put_header(s: &mut [u8], at: usize, table: &Table)
    requires { at + 7 ≤ length s.old }
    ensures { s.new ≡ sets s.old at (header_field table.now) }
{
    put_prefix(s, at, format::HEADER_TAG, format::HEADER_LENGTH);
    let from = at + format::PAYLOAD;
    s[from] = table.version;
    s[from + 1] = table.queues;
    put_number(s, from + 2, table.period);
}

fn put_location(s: &mut [u8], at: usize, location: Location)
    requires { at + 12 ≤ length s.old }
    ensures { s.new ≡ sets s.old at (location_field location) }
{
    put_prefix(s, at, format::LOCATION_TAG, format::LOCATION_LENGTH);
    let from = at + format::PAYLOAD;
    s[from] = location.parent;
    s[from + 1] = location.queue;
    put_number(s, from + 2, location.ticks);
    s[from + 4] = location.variable;
    put_number(s, from + 5, location.low);
    put_number(s, from + 7, location.high);
}

fn put_task(s: &mut [u8], at: usize, task: Task)
    requires { at + 10 ≤ length s.old }
    ensures { s.new ≡ sets s.old at (task_field task) }
{
    put_prefix(s, at, format::TASK_TAG, format::TASK_LENGTH);
    let from = at + format::PAYLOAD;
    s[from] = task.queue;
    put_number(s, from + 1, task.work);
    put_number(s, from + 3, task.deadline);
    put_number(s, from + 5, task.gap);
}

// Location v at its place, for each v below the number of locations.
#[tactic(auto, using(crate::proofs::Growing::locations_next), unfolding(format::specs::Format::location_fields))]
fn put_locations(s: &mut [u8], table: &Table)
    requires locations_fit { table.now.locations ≤ 128 }
    requires room { location_offset table.now.locations ≤ length s.old }
    ensures { s.new ≡ sets s.old 7 (location_fields table.now table.now.locations) }
{
    for v in 0..table.locations {
        put_location(s, location_offset(v), table.location[v]);
    }
}

// Task i at its place, for each i below the number of tasks. Not one with `put_locations`: entries, place and put would be parameters.
#[tactic(auto, using(crate::proofs::Growing::tasks_next), unfolding(format::specs::Format::task_fields))]
fn put_tasks(s: &mut [u8], table: &Table)
    requires tasks_fit { table.now.tasks ≤ 32 }
    requires room { record_length table.now ≤ length s.old }
    ensures { s.new ≡ sets s.old (task_offset table.now 0) (task_fields table.now table.now.tasks) }
{
    for i in 0..table.tasks {
        put_task(s, task_offset(table, i), table.task[i]);
    }
}

#[tactic(auto, using(crate::proofs::Growing::record_of_law))]
fn put_record(s: &mut [u8], table: &Table)
    requires locations_fit { table.now.locations ≤ 128 }
    requires tasks_fit { table.now.tasks ≤ 32 }
    requires room { record_length table.now ≤ length s.old }
    ensures { s.new ≡ sets s.old 0 (record_of table.now) }
{
    put_header(s, 0, table);
    put_locations(s, table);
    put_tasks(s, table);
}

// The judge first, then room for the whole record; bytes past it stay, and a refusal writes nothing.
pub fn write(table: Table, out: &mut [u8]) -> Result<usize, Refused>
    ensures value { write_answered result ≡ write_of table (length out.old) }
    ensures out_after { out.new ≡ written table out.old }
{
    judge::judge(&table)?;
    let length = record_length(&table);
    if out.len() < length {
        return Err(Refused::whole(Reason::Room));
    }
    put_record(out, &table);
    Ok(length)
}
