// The nodes that have an estimate and have not spread it yet, in buckets by their level, which is estimate and base cost together, both as
// base costs. No waiting node's level is more than the largest base cost above the least one, so that the nodes of a bucket have one level.
// `head[b]` is 1 more than the first waiting node of bucket b, 0 where none waits. From 3n on the work slice of n nodes has the same of the
// node after each waiting one: an entry there is a number, so none is 0 and no Option.
ghost use Rattle.std.specs.Prelude.{◌≡◌, ℕ, ◌+◌, ◌*◌, ◌%◌, ◌≤◌, ◌<◌, length, get_or, set};
ghost use Rattle.price.specs.Bounds.{nodes_most};
ghost use Rattle.search.specs.Layout.{link_at};
ghost use Rattle.search.specs.Estimates.{level_most};
ghost use Rattle.search.specs.Buckets.{buckets, LowestFrom};

// How many: more than the largest base cost.
pub const BUCKETS: usize = 1024;

// Node u waits at this level.
pub fn add(work: &mut [u64], n: usize, head: &mut [u16], u: usize, level: usize)
    requires { (u < n) × (n ≤ nodes_most) × (8 * n ≤ length work.old) × (length head.old ≡ buckets) }
    ensures { let b = level % buckets in
        let heads = head.old in
        (work.new ≡ set work.old (3 * n + u) (get_or heads b 0)) × (head.new ≡ set heads b (u + 1)) }
{
    let b = level % BUCKETS;
    work[3 * n + u] = head[b] as u64;
    head[b] = (u + 1) as u16;
}

// Takes a node that waits at this level out; there is one.
pub fn take(work: &[u64], n: usize, head: &mut [u16], level: usize) -> usize
    requires { let first = get_or head.old (level % buckets) 0 in
        (n ≤ nodes_most) × (8 * n ≤ length work.now) × (length head.old ≡ buckets)
        × ((v : ℕ) × (v < n) × (first ≡ v + 1) × (link_at n work.now v ≤ n)) }
    ensures { let b = level % buckets in
        let heads = head.old in
        (get_or heads b 0 ≡ result + 1) × (head.new ≡ set heads b (link_at n work.now result)) }
{
    let b = level % BUCKETS;
    let v = head[b] as usize - 1;
    head[b] = work[3 * n + v] as u16;
    v
}

// The least level from this one on at which a node waits; some node does.
pub fn lowest(head: &[u16], from: usize) -> usize
    requires { (length head.now ≡ buckets) × (from ≤ level_most) × ((b : ℕ) × (b < buckets) × (get_or head.now b 0 ≡ 0 → ⊥)) }
    ensures { LowestFrom head.now from result }
{
    let mut level = from;
    // No `for`: no last level is known here, only that some node waits.
    while head[level % BUCKETS] == 0 {
        level += 1;
    }
    level
}
