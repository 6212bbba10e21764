// The record of a table as bytes: reading it, and the question for one field (docs/RULES.md, The record).
#![tactic(auto)]

mod front; // front.rt: the fields from the front
mod offsets; // offsets.rt: where the payloads lie
mod payload; // payload.rt: what a payload holds

ghost use Rattle.std.specs.Prelude.{◌≡◌, ◌+◌};
ghost use Rattle.record.specs.Reading.{read_answered, read_of};
ghost use Rattle.record.specs.Field.{field_answered, field_refusal, part_of, part_offset, field_of};

use table::{Reason, Refusal, Refused, Table};

// What `read` answers, for C; zeros beside a refusal.
#[repr(C)]
#[derive(Clone, Copy)]
pub struct ReadAnswer {
    pub refusal: Refusal,
    pub table: Table,
}

impl From<Result<Table, Refused>> for ReadAnswer {
    ghost from_gives = { λ r a. a ≡ read_answered r };

    fn from(answer: Result<Table, Refused>) -> ReadAnswer {
        match answer {
            Ok(table) => ReadAnswer {
                refusal: Refusal::none(),
                table,
            },
            Err(refused) => ReadAnswer {
                refusal: Refusal::from(refused),
                table: Table::empty(),
            },
        }
    }
}

// A part of a record.
#[derive(Clone, Copy, Debug, Default, PartialEq, Eq)]
pub struct Part {
    pub offset: usize,
    pub length: usize,
}

// Where the payload of a field lies in the record, for C; zeros beside a refusal.
#[repr(C)]
#[derive(Clone, Copy)]
pub struct FieldAnswer {
    pub refusal: Refusal,
    pub offset: usize,
    pub length: usize,
}

impl From<Result<Part, Refused>> for FieldAnswer {
    ghost from_gives = { λ r a. a ≡ field_answered r };

    fn from(answer: Result<Part, Refused>) -> FieldAnswer {
        let refusal = Refusal::from(answer);
        let Part { offset, length } = answer.unwrap_or_default();
        FieldAnswer {
            refusal,
            offset,
            length,
        }
    }
}

// Reads a record: its fields from the front, then the judge of the table that they hold.
pub fn read(bytes: &[u8]) -> Result<Table, Refused>
    ensures { read_answered result ≡ read_of bytes.now }
{
    let table = front::fields(bytes)?;
    judge::judge(&table)?;
    Ok(table)
}

// The payload of field k, as a part of the record; an empty part where the question is refused, as docs/RULES.md has it.
#[tactic(auto, using(crate::proofs::Question::part_within))]
pub fn field<'a>(bytes: &'a [u8], k: usize) -> &'a [u8]
    ensures result_value { result.now ≡ part_of bytes.now k }
    ensures ref_ptr_value { result.ref_ptr ≡ (bytes.entry.ref_ptr.0, part_offset bytes.now k + bytes.entry.ref_ptr.1) }
{
    match field_place(bytes, k) {
        Ok(Part { offset, length }) => &bytes[offset..offset + length],
        Err(_) => &bytes[0..0],
    }
}

// The same question, answered by where the payload lies, for callers that no part of their bytes can be handed back to.
pub fn field_place(bytes: &[u8], k: usize) -> Result<Part, Refused>
    ensures { field_answered result ≡ field_of bytes.now k }
{
    let table = read(bytes)?;
    if offsets::field_count(&table) <= k {
        return Err(Refused::whole(Reason::Amount));
    }
    Ok(offsets::payload(&table, k))
}

// Why the question for field k is refused, and where, in numbers beside the part: 0 and 0 where `field` gives the payload.
pub fn field_refusal(bytes: &[u8], k: usize) -> Refusal
    ensures { result ≡ field_refusal bytes.now k }
{
    Refusal::from(field_place(bytes, k))
}
