// Which question is refused: the table's own refusal first, then the queue's, then the amount's or the room's. A question that is
// not refused is about a well-formed table.
ghost use Rattle.std.specs.Prelude.{◌≡◌, not, IfOk};
ghost use Rattle.table.specs.Reasons.{outcome};
ghost use Rattle.table.specs.Rules.{within};
ghost use Rattle.bounds.specs.Questions.{queue_refusal, window_refusal, fill_refusal};

use table::{Reason, Refused, Table, WellFormedTable};

// The longest window that is answered.
const WINDOW: u32 = 2000000;

fn is_outside(queues: u8, queue: u32) -> bool
    ensures { result ≡ not (within 1 queues queue) }
{
    queue == 0 || u32::from(queues) < queue
}

pub fn of_queue(table: &Table, queue: u32) -> Result<WellFormedTable<'_>, Refused>
    ensures refusal { outcome result ≡ queue_refusal table.now queue }
    ensures kept { IfOk result (λ t. t.table.now ≡ table.now) }
{
    let accepted = judge::judge(table)?;
    if is_outside(table.queues, queue) {
        return Err(Refused::whole(Reason::Queue));
    }
    Ok(accepted)
}

pub fn of_window(table: &Table, queue: u32, window: u32) -> Result<WellFormedTable<'_>, Refused>
    ensures refusal { outcome result ≡ window_refusal table.now queue window }
    ensures kept { IfOk result (λ t. t.table.now ≡ table.now) }
{
    let accepted = of_queue(table, queue)?;
    if WINDOW < window {
        return Err(Refused::whole(Reason::Amount));
    }
    Ok(accepted)
}

pub fn of_room(table: &Table, queue: u32, room: usize) -> Result<WellFormedTable<'_>, Refused>
    ensures refusal { outcome result ≡ fill_refusal table.now queue room }
    ensures kept { IfOk result (λ t. t.table.now ≡ table.now) }
{
    let accepted = of_queue(table, queue)?;
    if room < 2 * usize::from(table.period) {
        return Err(Refused::whole(Reason::Room));
    }
    Ok(accepted)
}
