// A table by value, in any condition, a refusal, and what is read off a table's columns (docs/RULES.md, Tables).
#![tactic(auto)]

ghost use Rattle.std.specs.Prelude.{◌≡◌};
ghost use Rattle.table.specs.Table.{empty_table};
ghost use Rattle.table.specs.Rules.{fine};

pub mod columns; // columns.rt: one field of every location
pub mod paths; // paths.rt: leaves, and the ticks along a path
mod refused; // refused.rt: a refusal as an error
mod well_formed; // well_formed.rt: a table that the judge accepts

pub use refused::{Reason, Refused};
pub use well_formed::WellFormedTable;

#[repr(C)]
#[derive(Clone, Copy)]
pub struct Location {
    pub parent: u8,
    pub queue: u8,
    pub ticks: u16,
    pub variable: u8,
    pub low: u16,
    pub high: u16,
}

// The rules' C, D and T are `work`, `deadline` and `gap`.
#[repr(C)]
#[derive(Clone, Copy)]
pub struct Task {
    pub queue: u8,
    pub work: u16,
    pub deadline: u16,
    pub gap: u16,
}

// `locations` and `tasks` say how many entries count; what lies past them means nothing. C has the arrays and the counts so.
#[repr(C)]
#[derive(Clone, Copy)]
pub struct Table {
    pub version: u8,
    pub queues: u8,
    pub period: u16,
    pub locations: usize,
    pub tasks: usize,
    pub location: [Location; Table::LOCATIONS],
    pub task: [Task; Table::TASKS],
}

impl Table {
    pub const LOCATIONS: usize = 128;

    pub const TASKS: usize = 32;

    pub const VERSION: u8 = 1;

    pub const QUEUES: u8 = 16;

    pub const PERIOD: u16 = 1024;

    pub const TICKS: u16 = 1024;

    pub const VARIABLES: u8 = 8;

    // The largest value of a variable, and how many values there are.
    pub const TOP: u16 = 65535;

    pub const VALUES: u32 = 65536;

    // All zeros: what stands beside a refusal.
    pub fn empty() -> Table
        ensures { result ≡ empty_table }
    {
        let none = Location {
            parent: 0,
            queue: 0,
            ticks: 0,
            variable: 0,
            low: 0,
            high: 0,
        };
        let idle = Task {
            queue: 0,
            work: 0,
            deadline: 0,
            gap: 0,
        };
        let location = [none; Table::LOCATIONS];
        let task = [idle; Table::TASKS];
        Table {
            version: 0,
            queues: 0,
            period: 0,
            locations: 0,
            tasks: 0,
            location,
            task,
        }
    }
}

// Why an answer is refused, and where, in numbers for C: that of the `Reason`, or 0 where nothing is refused.
#[repr(C)]
#[derive(Clone, Copy)]
pub struct Refusal {
    pub number: u8,
    pub place: usize,
}

impl Refusal {
    // Number 0: C is told that nothing is refused.
    pub fn none() -> Refusal
        ensures { result ≡ fine }
    {
        Refusal {
            number: 0,
            place: 0,
        }
    }
}
