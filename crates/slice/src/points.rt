// Points lower the entries of a slice: one by one, and each once more with a whole cycle added.
ghost use Rattle.std.specs.Prelude.{◌-◌, ◌<◌, ◌≤◌, length};
ghost use Rattle.slice.specs.Changes.{Lowers, Single, Until, Longer};

// A point that is longer than the slice lowers the last entry.
pub fn lower(out: &mut [u32], n: usize, m: u64)
    ensures { Lowers (length out.old - 1) (Single n m) out.old out.new }
{
    if out.is_empty() {
        return;
    }
    let i = n.min(out.len() - 1);
    out[i] = u64::from(out[i]).min(m) as u32;
}

// Every entry with a whole cycle more: from the last to the first, so that each adds to what was there before.
pub fn stretch(out: &mut [u32], period: usize, cycle: u32)
    requires { (0 < length out.old) × (period ≤ 1024) }
    ensures { Lowers (length out.old - 1) (Until (Longer period cycle out.old) (length out.old)) out.old out.new }
{
    for i in (0..out.len()).rev() {
        let count = u64::from(out[i]) + u64::from(cycle);
        lower(out, i + period, count);
    }
}
