// The search for the shortest window in which demand exceeds the least supply, block by block from deadline to deadline.
ghost use Rattle.std.specs.Prelude.{◌≡◌, ◌≤◌};
ghost use Rattle.theory.specs.Search.{lcm_of};
ghost use Rattle.table.specs.Table.{tasks_of};
ghost use Rattle.search.specs.Answers as answers;
ghost use Rattle.search.specs.Answered.{verdict_answered};

use crate::Verdict;
use demand::deadlines::Deadlines;
use demand::series::BLOCK;
use supply::queues::Supply;

// The verdict, from the supply and the multiple. Demand moves at deadlines only, and least never falls: the shortest short
// window is a deadline, and one past the multiple has a shorter one before it. So the next block begins at the next deadline,
// and only windows with work are compared.
pub fn decide(supply: &Supply, multiple: u32) -> Verdict
    requires common_multiple { (multiple ≡ lcm_of (tasks_of supply.now.table.now.table.now) supply.now.queue supply.now.table.now.table.now.period) × (multiple ≤ 1000000) }
    ensures { answers.Verdict supply.now.table.now.table.now supply.now.queue (verdict_answered (Ok result)) }
{
    let mut deadlines = Deadlines::of(supply.table, supply.queue);
    let mut demand: u32 = 0;
    let mut next = Some(1);
    while let Some(start) = next.filter(|start| *start <= multiple) {
        let mut block = [0u32; BLOCK];
        next = deadlines.advance(start, &mut block);
        for (i, work) in block.iter().enumerate() {
            demand += *work;
            if *work != 0 {
                let window = start + i as u32;
                let least = supply.at(window);
                if least < demand {
                    return Verdict::Short {
                        window,
                        demand,
                        supply: least,
                    };
                }
            }
        }
    }
    Verdict::Meets
}
