// From the filling to the verdict: the shortest window that is short (docs/RULES.md, Demand, verdict and wait).
#![tactic(auto)]

ghost use Rattle.std.specs.Prelude.{◌≡◌};
ghost use Rattle.search.specs.Answered.{verdict_answered};

use std::fmt;
use table::{Refusal, Refused};

pub mod verdicts; // verdicts.rt: the shortest short window

// The queue meets, or the shortest window in which demand exceeds the least supply.
#[derive(Clone, Copy, Debug, PartialEq, Eq)]
pub enum Verdict {
    Meets,
    Short {
        window: u32,
        demand: u32,
        supply: u32,
    },
}

impl fmt::Display for Verdict {
    fn fmt<W: fmt::Write>(&self, f: &mut fmt::Formatter<W>) -> fmt::Result {
        match *self {
            Verdict::Meets => f.write_str("meets"),
            Verdict::Short {
                window,
                demand,
                supply,
            } => write!(f, "short {window} {demand} {supply}"),
        }
    }
}

// The same as C is given it, or a refusal. Zeros beside a refusal and beside MEETS.
#[repr(C)]
#[derive(Clone, Copy)]
pub struct VerdictAnswer {
    pub refusal: Refusal,
    pub meets: bool,
    pub window: u32,
    pub demand: u32,
    pub supply: u32,
}

impl From<Result<Verdict, Refused>> for VerdictAnswer {
    ghost from_gives = { λ r a. a ≡ verdict_answered r };

    fn from(verdict: Result<Verdict, Refused>) -> VerdictAnswer {
        let none = VerdictAnswer {
            refusal: Refusal::none(),
            meets: false,
            window: 0,
            demand: 0,
            supply: 0,
        };
        match verdict {
            Ok(Verdict::Meets) => VerdictAnswer {
                meets: true,
                ..none
            },
            Ok(
                Verdict::Short {
                    window,
                    demand,
                    supply,
                },
            ) => VerdictAnswer {
                window,
                demand,
                supply,
                ..none
            },
            Err(refused) => VerdictAnswer {
                refusal: refused.into(),
                ..none
            },
        }
    }
}
