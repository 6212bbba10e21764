// A refusal as an error: why, and where. `Refusal` is the same in numbers, as C is given it.
ghost use Rattle.std.specs.Prelude.{◌≡◌};
ghost use Rattle.table.specs.Reasons.{number, as_refusal, outcome};

use crate::Refusal;
use std::error::Error;
use std::fmt;

// In the order of their numbers in docs/RULES.md.
#[derive(Clone, Copy, Debug, PartialEq, Eq)]
pub enum Reason {
    Cut = 1,
    Field = 2,
    Count = 3,
    Value = 4,
    Shape = 5,
    Gap = 6,
    Overlap = 7,
    Period = 8,
    Task = 9,
    Queue = 10,
    Amount = 11,
    Never = 12,
    Horizon = 13,
    State = 14,
    Early = 15,
    Room = 16,
}

#[derive(Clone, Copy, Debug, PartialEq, Eq)]
pub struct Refused {
    pub reason: Reason,
    pub place: usize,
}

impl Refused {
    // No entry has the fault: place 0.
    pub fn whole(reason: Reason) -> Refused
        ensures { result ≡ record { reason = reason; place = 0 } }
    {
        Refused { reason, place: 0 }
    }
}

impl From<Refused> for Refusal {
    ghost from_gives = { λ r a. a ≡ as_refusal r };

    fn from(refused: Refused) -> Refusal {
        Refusal {
            number: refused.reason as u8,
            place: refused.place,
        }
    }
}

impl<T: Drop> From<Result<T, Refused>> for Refusal {
    ghost from_gives = { λ r a. a ≡ outcome r };

    fn from(answer: Result<T, Refused>) -> Refusal {
        match answer {
            Ok(_) => Refusal::none(),
            Err(refused) => Refusal::from(refused),
        }
    }
}

impl fmt::Display for Refused {
    fn fmt<W: fmt::Write>(&self, f: &mut fmt::Formatter<W>) -> fmt::Result {
        let number = self.reason as u8;
        let place = self.place;
        write!(f, "refused {number} {place}")
    }
}

impl Error for Refused {}
