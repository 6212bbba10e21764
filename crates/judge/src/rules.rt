// One function for each rule, whose error has the rule's lowest place; `breaks_..` and `misses_..` test one entry.
ghost use Rattle.std.specs.Prelude.{◌≡◌, not, false, ◌&&◌, ◌||◌, Bool, ℕ, ◌+◌, ◌^◌, ◌<◌, ◌≤◌, T, eqb, leb, IfOk};
ghost use Rattle.laws.specs.Found.{first};
ghost use Rattle.laws.proofs.Climb.{Falls};
ghost use Rattle.table.specs.Columns.{entry, leaf_over, misses_period, judged_tree};
ghost use Rattle.table.specs.Ranged.{HighInWidth};
ghost use Rattle.table.specs.Reasons.{number, outcome};
ghost use Rattle.table.specs.Rules.{within, is_placed, breaks_count, breaks_header, breaks_value, breaks_shape, breaks_task, refuse, fine, lowest_location, lowest_task, location_place, task_place};
ghost use Rattle.guards.specs.Children.{gap_in, overlap_in};
ghost use Rattle.guards.specs.Lent.{guards_of, ReadFrom};

use guards::Guards;
use table::{Location, Reason, Refused, Table, Task, columns, paths};

// The refusal at the lowest of n entries that breaks a rule; entry 0 has the place `from`.
fn lowest<F: Fn(usize) -> bool>(
    reason: Reason,
    from: usize,
    n: usize,
    breaks: F,
) -> Result<(), Refused>
    requires callable { (v : ℕ) → v < n → F.pre breaks v }
    requires in_range { from + n < 2 ^ 64 }
    ensures refusal { (rule : ℕ → Bool) (place : ℕ → ℕ) → ((v : ℕ) (b : Bool) → v < n → F.post breaks v b → b ≡ rule v) → ((v : ℕ) → place v ≡ from + v) → outcome result ≡ refuse (number reason) place (first rule 0 n) fine }
    ensures unbroken { IfOk result (λ u. (v : ℕ) → v < n → F.post breaks v false) }
{
    for v in 0..n {
        if breaks(v) {
            return Err(Refused {
                reason,
                place: from + v,
            });
        }
    }
    Ok(())
}

pub fn breaks_count(table: &Table) -> bool
    ensures { result ≡ breaks_count table.now }
{
    table.locations < 1 || Table::LOCATIONS < table.locations || Table::TASKS < table.tasks
}

pub fn breaks_header(table: &Table) -> bool
    ensures { result ≡ breaks_header table.now }
{
    table.version != Table::VERSION
        || table.queues < 1
        || Table::QUEUES < table.queues
        || table.period < 1
        || Table::PERIOD < table.period
}

fn breaks_value(l: Location, queues: u8) -> bool
    ensures value { result ≡ not (within 1 1024 l.ticks && (leb l.queue queues && (leb l.variable 7 && leb l.low l.high))) }
    ensures in_width { l.high ≤ 65535 }
{
    l.ticks < 1
        || Table::TICKS < l.ticks
        || queues < l.queue
        || Table::VARIABLES <= l.variable
        || l.high < l.low
}

pub fn judge_value(table: &Table) -> Result<(), Refused>
    requires { table.now.locations ≤ 128 }
    ensures refusal { outcome result ≡ refuse 4 location_place (lowest_location table.now breaks_value) fine }
    ensures in_width { IfOk result (λ u. HighInWidth table.now) }
{
    lowest(Reason::Value, 1, table.locations, |v| {
        breaks_value(table.location[v], table.queues)
    })
}

fn is_placed(l: Location, v: usize) -> bool
    ensures { result ≡ is_placed l v }
{
    if v != 0 {
        return usize::from(l.parent) < v;
    }
    l.parent == 0 && l.low == 0 && l.high == Table::TOP
}

fn breaks_shape(l: Location, guards: &Guards, v: usize) -> bool
    requires { v < 128 }
    ensures { result ≡ not (is_placed l v && (eqb l.variable 0 || not (leaf_over guards.now.parents guards.now.n v))) }
{
    !is_placed(l, v) || l.variable != 0 && guards.is_leaf(v)
}

// The guards are read from the table's columns.
pub fn judge_shape(table: &Table, guards: &Guards) -> Result<(), Refused>
    requires in_bounds { table.now.locations ≤ 128 }
    requires of_table { ReadFrom table.now guards.now }
    ensures { outcome result ≡ refuse 5 location_place (lowest_location table.now breaks_shape) fine }
{
    lowest(Reason::Shape, 1, table.locations, |v| {
        breaks_shape(table.location[v], guards, v)
    })
}

pub fn judge_gap(guards: &Guards) -> Result<(), Refused>
    ensures { outcome result ≡ refuse 6 location_place (first (gap_in (guards_of guards.now)) 0 guards.now.n) fine }
{
    lowest(Reason::Gap, 1, guards.n, |v| guards.has_gap(v))
}

// Judged after GAP.
pub fn judge_overlap(guards: &Guards) -> Result<(), Refused>
    requires no_gap { (v : ℕ) → v < guards.now.n → T (not (gap_in (guards_of guards.now) v)) }
    ensures { outcome result ≡ refuse 7 location_place (first (overlap_in (guards_of guards.now)) 0 guards.now.n) fine }
{
    lowest(Reason::Overlap, 1, guards.n, |v| guards.has_overlap(v))
}

fn misses_period(guards: &Guards, ticks: &[u16; Table::LOCATIONS], v: usize, period: u16) -> bool
    requires { (v < guards.now.n) × Falls (entry guards.now.parents) guards.now.n }
    ensures { result ≡ misses_period guards.now.parents ticks.now guards.now.n period v }
{
    guards.is_leaf(v) && paths::path_ticks(&guards.parents, ticks, v) != u32::from(period)
}

// Judged after SHAPE, so parents fall.
pub fn judge_period(
    guards: &Guards,
    ticks: &[u16; Table::LOCATIONS],
    period: u16,
) -> Result<(), Refused>
    requires { Falls (entry guards.now.parents) guards.now.n }
    ensures { outcome result ≡ refuse 8 location_place (first (misses_period guards.now.parents ticks.now guards.now.n period) 0 guards.now.n) fine }
{
    lowest(Reason::Period, 1, guards.n, |v| {
        misses_period(guards, ticks, v, period)
    })
}

fn breaks_task(k: Task, queues: u8) -> bool
    ensures { result ≡ not (within 1 queues k.queue && (leb 1 k.work && (leb k.work k.deadline && leb k.deadline k.gap))) }
{
    k.queue < 1 || queues < k.queue || k.work < 1 || k.deadline < k.work || k.gap < k.deadline
}

pub fn judge_task(table: &Table) -> Result<(), Refused>
    requires { (table.now.locations ≤ 128) × (table.now.tasks ≤ 32) }
    ensures { outcome result ≡ refuse 9 (task_place table.now) (lowest_task table.now breaks_task) fine }
{
    lowest(Reason::Task, table.locations + 1, table.tasks, |i| {
        breaks_task(table.task[i], table.queues)
    })
}

// SHAPE, GAP, OVERLAP and PERIOD, where no location breaks VALUE.
pub fn judge_tree(table: &Table) -> Result<(), Refused>
    requires in_bounds { (1 ≤ table.now.locations) × (table.now.locations ≤ 128) }
    requires values { (v : ℕ) → v < table.now.locations → T (not (breaks_value table.now v)) }
    requires in_width { HighInWidth table.now }
    ensures { outcome result ≡ judged_tree table.now fine }
{
    let guards = Guards::of(table);
    judge_shape(table, &guards)?;
    judge_gap(&guards)?;
    judge_overlap(&guards)?;
    judge_period(&guards, &columns::ticks(table), table.period)
}
