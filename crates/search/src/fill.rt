// Filling a part of the work slice.
ghost use Rattle.std.specs.Prelude.{◌++◌, ◌≡◌, ◌-◌, ◌≤◌, length, take, drop, replicate};

// Entries from `from` to below `to` hold x. A loop and no `fill`, which was measured slower: this is compiled to a
// call that fills memory.
#[inline(always)]
pub fn fill(work: &mut [u64], from: usize, to: usize, x: u64)
    requires { (from ≤ to) × (to ≤ length work.old) }
    ensures { work.new ≡ take from work.old ++ (replicate (to - from) x ++ drop to work.old) }
{
    for k in from..to {
        work[k] = x;
    }
}
