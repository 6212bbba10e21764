// The format of a record (docs/RULES.md, The record): each kind of field by its tag, the length of its payload, and the bytes
// of the whole field.
#![tactic(auto)]

pub mod bytes; // bytes.rt: numbers of two bytes
pub mod offsets; // offsets.rt: where the fields begin
pub mod refusals; // refusals.rt: the tests at one field

pub const HEADER_TAG: u8 = 1;

pub const LOCATION_TAG: u8 = 2;

pub const TASK_TAG: u8 = 3;

pub const HEADER_LENGTH: u16 = 4;

pub const LOCATION_LENGTH: u16 = 9;

pub const TASK_LENGTH: u16 = 7;

// Where the length begins in its field: after the tag.
pub const LENGTH: usize = 1;

// Where a payload begins in its field: after tag and length.
pub const PAYLOAD: usize = 3;

pub const HEADER_FIELD: usize = 7;

pub const LOCATION_FIELD: usize = 12;

pub const TASK_FIELD: usize = 10;
