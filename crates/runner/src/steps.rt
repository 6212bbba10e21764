// What a step refuses, and what an accepted one does.
ghost use Rattle.std.specs.Prelude.{◌≡◌, IfOk};
ghost use Rattle.table.specs.Reasons.{outcome};
ghost use Rattle.runner.specs.State.{Lawful};
ghost use Rattle.runner.specs.Step.{step_refusal, stepped, step_answered};

use crate::places::Place;
use crate::{Granted, State, lawful, places};
use jobs::Tasks;
use table::{Reason, Refused, Table, WellFormedTable};

// The table's refusal, then STATE, then EARLY.
pub fn checked<'a>(
    state: &State,
    table: &'a Table,
    set: u32,
) -> Result<WellFormedTable<'a>, Refused>
    ensures refusal { outcome result ≡ step_refusal table.now state.now set }
    ensures kept { IfOk result (λ t. t.table.now ≡ table.now) }
{
    let accepted = judge::judge(table)?;
    if !lawful::is_lawful(state, accepted.table) {
        return Err(Refused::whole(Reason::State));
    }
    match lawful::early(&state.jobs, accepted.table, set) {
        Some(place) => Err(Refused {
            reason: Reason::Early,
            place,
        }),
        None => Ok(accepted),
    }
}

// The four rules in their order.
pub fn accepted(
    state: &mut State,
    table: &WellFormedTable,
    values: [u16; State::VARIABLES],
    set: u32,
) -> Granted
    requires { Lawful table.now.table.now state.old }
    ensures { step_answered state.new (Ok result) ≡ stepped table.now.table.now state.old values set }
{
    let tasks = Tasks { table: table.table };
    let queue = table.table.location[usize::from(state.location)].queue;
    let waiting = tasks.release(&state.jobs, set);
    let choice = tasks.earliest(&waiting, queue);
    let aged = tasks.age(&waiting, choice);
    let here = Place {
        location: state.location,
        done: state.done,
    };
    let there = places::next(here, table, values);
    *state = State {
        location: there.location,
        done: there.done,
        jobs: tasks.drop_late(&aged),
    };
    Granted {
        queue,
        task: choice.map(|i| i as u8),
        late: tasks.late_set(&aged),
    }
}
