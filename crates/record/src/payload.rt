// What a payload holds. Each decoder gets the bytes from the payload's offset on.
ghost use Rattle.std.specs.Prelude.{◌≡◌, ◌≤◌, length};
ghost use Rattle.format.specs.Format.{header_of, location_of, task_of};

use format::bytes::number16;
use table::{Location, Table, Task};

// A table with the header's numbers and nothing else.
pub(crate) fn header(s: &[u8]) -> Table
    requires { 4 ≤ length s.now }
    ensures { result ≡ header_of s.now }
{
    Table {
        version: s[0],
        queues: s[1],
        period: number16(&s[2..]),
        ..Table::empty()
    }
}

pub(crate) fn location(s: &[u8]) -> Location
    requires { 9 ≤ length s.now }
    ensures { result ≡ location_of s.now }
{
    Location {
        parent: s[0],
        queue: s[1],
        ticks: number16(&s[2..]),
        variable: s[4],
        low: number16(&s[5..]),
        high: number16(&s[7..]),
    }
}

pub(crate) fn task(s: &[u8]) -> Task
    requires { 7 ≤ length s.now }
    ensures { result ≡ task_of s.now }
{
    Task {
        queue: s[0],
        work: number16(&s[1..]),
        deadline: number16(&s[3..]),
        gap: number16(&s[5..]),
    }
}
