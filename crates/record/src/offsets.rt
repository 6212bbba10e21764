// How many fields a table has, and where their payloads lie.
ghost use Rattle.std.specs.Prelude.{◌≡◌, ◌^◌, ◌<◌};
ghost use Rattle.format.specs.Format.{record_length, field_count, payload_offset, payload_length};

use crate::Part;
use format::offsets::{location_offset, task_offset};
use table::Table;

// The header is field 0, location v is field v + HEADERS; the tasks come after the locations.
const HEADERS: usize = 1;

pub(crate) fn field_count(table: &Table) -> usize
    requires { record_length table.now < 2 ^ 64 }
    ensures { result ≡ field_count table.now }
{
    HEADERS + table.locations + table.tasks
}

// Where the payload of field k lies.
pub(crate) fn payload(table: &Table, k: usize) -> Part
    requires fits { record_length table.now < 2 ^ 64 }
    requires has_field { k < field_count table.now }
    ensures offset { result.offset ≡ payload_offset table.now k }
    ensures length { result.length ≡ payload_length table.now k }
{
    let (field, whole) = if k == 0 {
        (0, format::HEADER_FIELD)
    } else if k <= table.locations {
        (location_offset(k - HEADERS), format::LOCATION_FIELD)
    } else {
        let i = k - (table.locations + HEADERS);
        (task_offset(table, i), format::TASK_FIELD)
    };
    Part {
        offset: field + format::PAYLOAD,
        length: whole - format::PAYLOAD,
    }
}
