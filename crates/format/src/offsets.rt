// Where the fields of a record begin: one header, then all locations, then all tasks.
ghost use Rattle.std.specs.Prelude.{◌≡◌, ◌^◌, ◌<◌};
ghost use Rattle.format.specs.Format.{location_offset, task_offset, record_length};

use table::Table;

pub fn location_offset(v: usize) -> usize
    requires { location_offset v < 2 ^ 64 }
    ensures { result ≡ location_offset v }
{
    crate::HEADER_FIELD + crate::LOCATION_FIELD * v
}

pub fn task_offset(table: &Table, i: usize) -> usize
    requires { task_offset table.now i < 2 ^ 64 }
    ensures { result ≡ task_offset table.now i }
{
    location_offset(table.locations) + crate::TASK_FIELD * i
}

pub fn record_length(table: &Table) -> usize
    requires { record_length table.now < 2 ^ 64 }
    ensures { result ≡ record_length table.now }
{
    task_offset(table, table.tasks)
}
