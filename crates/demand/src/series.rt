// The deadlines of one task that are still to come, and its work in a block of windows.
ghost use Rattle.std.specs.Prelude.{◌≡◌, ℕ, ◌+◌, ◌≤◌, ◌<◌};
ghost use Rattle.theory.specs.Task.{demand_of};
ghost use Rattle.demand.specs.Ahead.{far, waiting_for, entered, laid, Enters};

use table::Task;

// So many windows are looked at together.
pub const BLOCK: usize = 64;

// The next deadline, the gap to each later one, and the work that each brings.
#[derive(Clone, Copy)]
pub struct Series {
    pub next: u32,
    pub gap: u32,
    pub work: u32,
}

impl Series {
    pub fn of(task: &Task) -> Series
        ensures laid { result ≡ laid task.now }
        ensures small_gap { result.gap ≤ 65535 }
    {
        Series {
            next: u32::from(task.deadline),
            gap: u32::from(task.gap),
            work: u32::from(task.work),
        }
    }

    // The work of each deadline in the block that begins at `start`, from deadline to deadline: the next one is then past the block.
    pub fn enter(&mut self, start: u32, block: &mut [u32; BLOCK])
        requires in_bounds { (start ≤ 1000000) × (start ≤ self.old.next) × (1 ≤ self.old.gap) × (self.old.gap ≤ 65535) }
        requires fits { (w : ℕ) → w < start + 64 → entered block.old start w + demand_of (waiting_for self.old) w ≤ far }
        ensures { Enters start self.old self.new block.old block.new }
    {
        let end = start + BLOCK as u32;
        while self.next < end {
            block[(self.next - start) as usize] += self.work;
            self.next += self.gap;
        }
    }
}
