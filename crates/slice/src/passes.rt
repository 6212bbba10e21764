// The slice before the points, and the two passes after them.
ghost use Rattle.std.specs.Prelude.{◌-◌, ◌≤◌, length};
ghost use Rattle.theory.specs.Filling.{down, up, filling};
ghost use Rattle.table.specs.Columns.{entry};
ghost use Rattle.slice.specs.Changes.{Becomes};

// No window has more ticks that pass than ticks.
pub fn ramp(out: &mut [u32])
    requires { length out.old ≤ 2048 }
    ensures { Becomes (length out.old - 1) (λ i. i) out.old out.new }
{
    for (i, x) in out.iter_mut().enumerate() {
        *x = i as u32;
    }
}

// A shorter window has no more than a longer one.
fn down(out: &mut [u32])
    ensures { Becomes (length out.old - 1) (λ i. down (entry out.old) (length out.old - 1 - i) i) out.old out.new }
{
    for i in (1..out.len()).rev() {
        out[i - 1] = out[i - 1].min(out[i]);
    }
}

// A window of one tick more has at most one more.
fn up(out: &mut [u32])
    ensures { Becomes (length out.old - 1) (up (entry out.old)) out.old out.new }
{
    for i in 1..out.len() {
        out[i] = out[i].min(out[i - 1].saturating_add(1));
    }
}

// Both passes.
pub fn settle(out: &mut [u32])
    ensures { Becomes (length out.old - 1) (filling (entry out.old) (length out.old - 1)) out.old out.new }
{
    down(out);
    up(out);
}
