// The deadlines of a queue's tasks, and the way past a block of windows with the work that is due in each.
ghost use Rattle.std.specs.Prelude.{◌≡◌, ℕ, ◌+◌, ◌≤◌, ◌<◌};
ghost use Rattle.demand.specs.Ahead.{far, series_at, ahead, entered, LaidOut, Advances};

use crate::due;
pub use crate::series::BLOCK;
use crate::series::Series;
use table::{Table, WellFormedTable};

// One series for each of the queue's own tasks; past `count` they mean nothing. An array with a count, since there is no heap.
#[derive(Clone, Copy)]
pub struct Deadlines {
    pub series: [Series; Table::TASKS],
    pub count: usize,
    pub ghost few: { count ≤ 32 },
    pub ghost gaps_in_bounds: { (i : ℕ) → i < count → (1 ≤ (series_at series i).gap) × ((series_at series i).gap ≤ 65535) },
}

impl Deadlines {
    pub fn of(table: &WellFormedTable, queue: u32) -> Deadlines
        ensures { LaidOut table.now.table.now queue result.series result.count }
    {
        let none = Series {
            next: 0,
            gap: 0,
            work: 0,
        };
        let mut series = [none; Table::TASKS];
        let mut count: usize = 0;
        for task in due::tasks(table) {
            if u32::from(task.queue) == queue {
                series[count] = Series::of(task);
                count += 1;
            }
        }
        Deadlines { series, count }
    }

    // Past the block that begins at `start`; the next deadline of all.
    pub fn advance(&mut self, start: u32, block: &mut [u32; BLOCK]) -> Option<u32>
        requires in_bounds { (start ≤ 1000000) × ((i : ℕ) → i < self.old.count → start ≤ (series_at self.old.series i).next) }
        requires fits { (w : ℕ) → w < start + 64 → entered block.old start w + ahead self.old.series self.old.count w ≤ far }
        ensures same_tasks { self.new.count ≡ self.old.count }
        ensures advances { Advances self.new.count start self.old.series self.new.series block.old block.new result }
    {
        let mut next: Option<u32> = None;
        for i in 0..self.count {
            // A field beside a ghost field is not lent as `&mut`: a copy is, and stored back.
            let mut series = self.series[i];
            series.enter(start, block);
            self.series[i] = series;
            next = Some(next.map_or(series.next, |n| n.min(series.next)));
        }
        next
    }
}
