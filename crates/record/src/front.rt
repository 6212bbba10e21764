// The fields from the front: what is met first is refused.
ghost use Rattle.std.specs.Prelude.{◌≡◌, ◌<◌};
ghost use Rattle.record.specs.Reading.{placed, read_answered, with_location, with_task, fields_of};

use crate::payload;
use format::refusals::{self, Kind};
use table::{Location, Reason, Refused, Table, Task};

// What is refused is refused at the place where it is met.
fn placed<T>(answer: Result<T, Reason>, place: usize) -> Result<T, Refused>
    ensures { result ≡ placed place answer }
{
    answer.map_err(|reason| Refused { reason, place })
}

fn add_location(table: &mut Table, location: Location)
    requires { table.old.locations < 128 }
    ensures { table.new ≡ with_location table.old location }
{
    table.location[table.locations] = location;
    table.locations += 1;
}

// Not one with `add_location`: list, count and entry would be parameters.
fn add_task(table: &mut Table, task: Task)
    requires { table.old.tasks < 32 }
    ensures { table.new ≡ with_task table.old task }
{
    table.task[table.tasks] = task;
    table.tasks += 1;
}

// The refusals 1 to 3, or the table that the fields hold.
pub(crate) fn fields(s: &[u8]) -> Result<Table, Refused>
    ensures { read_answered result ≡ fields_of s.now }
{
    placed(refusals::whole_header(s), 0)?;
    let mut table = payload::header(&s[format::PAYLOAD..]);
    let mut at = format::HEADER_FIELD;
    // From field to field: what was met says how far.
    while at < s.len() {
        let met = refusals::whole_field(s, at, table.locations, table.tasks);
        let kind = placed(met, at)?;
        let payload = &s[at + format::PAYLOAD..];
        match kind {
            Kind::Location => {
                add_location(&mut table, payload::location(payload));
                at += format::LOCATION_FIELD;
            }
            Kind::Task => {
                add_task(&mut table, payload::task(payload));
                at += format::TASK_FIELD;
            }
        }
    }
    if table.locations == 0 {
        return Err(Refused {
            reason: Reason::Cut,
            place: at,
        });
    }
    Ok(table)
}
