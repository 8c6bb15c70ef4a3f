// The queue: a tournament tree over the nodes' keys, in the work slice from entry n on. Entry i is the least of entries 2i and 2i + 1,
// a node's leaf is entry n + node, and entry 1 is the least of all. With 2^64 - 1 in all of them nothing waits.
ghost use Rattle.std.specs.Prelude.{◌≡◌, ◌+◌, ◌*◌, ◌/◌, ◌≤◌, ◌<◌, min, length};
ghost use Rattle.search.specs.Layout.{entry_at, leaf_at, Tournament, TournamentBut, LoweredBelow, SameBut, Queued};

// The least of the two children of entry i.
fn lesser_child(work: &[u64], n: usize, i: usize) -> u64
    requires { (i < n) × (3 * n ≤ length work.now) }
    ensures { result ≡ min (entry_at n work.now (2 * i)) (entry_at n work.now (2 * i + 1)) }
{
    work[n + 2 * i].min(work[n + (2 * i + 1)])
}

// Carries a change below entry i up, as far as it reaches.
fn carry_up(work: &mut [u64], n: usize, from: usize)
    requires { (from < n) × (3 * n ≤ length work.old) × TournamentBut n work.old from }
    ensures { Tournament n work.new × SameBut (n + 1) (2 * n) work.old work.new }
{
    let mut i = from;
    // No `for`: the entry's number halves on the way up.
    while 0 < i {
        let least = lesser_child(work, n, i);
        if work[n + i] == least {
            return;
        }
        work[n + i] = least;
        i /= 2;
    }
}

// Carries a lower key up from a child of entry i: an entry that is above the key becomes it, as far as there is one.
fn lower_above(work: &mut [u64], n: usize, from: usize, key: u64)
    requires { (from < n) × (3 * n ≤ length work.old) × TournamentBut n work.old from × LoweredBelow n key work.old from }
    ensures { Tournament n work.new × SameBut (n + 1) (2 * n) work.old work.new }
{
    let mut i = from;
    // No `for`: the entry's number halves on the way up.
    while 0 < i {
        if work[n + i] <= key {
            return;
        }
        work[n + i] = key;
        i /= 2;
    }
}

// Node v waits at this key. At 2^64 - 1 it does not wait any more. A key that falls needs no look at the other child of an entry.
pub fn wait(work: &mut [u64], n: usize, v: usize, key: u64)
    requires { (v < n) × (8 * n ≤ length work.old) × Tournament n work.old }
    ensures { Queued n v key work.old work.new }
{
    let old = work[2 * n + v];
    work[2 * n + v] = key;
    if key <= old {
        lower_above(work, n, (n + v) / 2, key);
    } else {
        carry_up(work, n, (n + v) / 2);
    }
}

// A node whose leaf is the least entry.
pub fn nearest(work: &[u64], n: usize) -> usize
    requires { (1 ≤ n) × (3 * n ≤ length work.now) × Tournament n work.now }
    ensures { (result < n) × (leaf_at n work.now result ≡ entry_at n work.now 1) }
{
    let mut i = 1;
    // No `for`: the entry's number doubles on the way down.
    while i < n {
        let right = if work[n + 2 * i] == work[n + i] { 0 } else { 1 };
        i = 2 * i + right;
    }
    i - n
}
