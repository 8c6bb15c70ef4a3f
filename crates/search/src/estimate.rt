// The estimates: they spread from the unjoined sinks over the edges by their target, at base costs alone, the waiting node of least level
// first. All nodes before a node get its level as their estimate, so that the first estimate of a node is final. No price is read here.
// The work slice of n nodes: distances from 0, estimates from 6n.
ghost use Rattle.std.specs.Prelude.{Bool, true, false, ◌≡◌, ℕ, ◌+◌, ◌*◌, ◌-◌, ◌≤◌, ◌<◌, ◌⊎◌, List, eqb, length, get_or, set};
ghost use Rattle.price.specs.Test.{choose};
ghost use Rattle.price.specs.Bounds.{nodes_most, base_most};
ghost use Rattle.search.specs.Block.{graph_of};
ghost use Rattle.search.specs.Block.{back_in};
ghost use Rattle.search.specs.Distance.{far};
ghost use Rattle.search.specs.Clamped.{clamped_base, clamped_scale};
ghost use Rattle.search.specs.Layout.{dist_at, estimate_at, Tournament};
ghost use Rattle.search.specs.Buckets.{buckets, Lined, waits};
ghost use Rattle.search.specs.Estimates.{scale_most, level_most, reach_most, lacking_in, Sized, Given, WaitsToSpread};
ghost use Rattle.search.specs.Estimates.{GiveReady, GivenBefore, Spread, NoneGiven, SinksGiven};

use crate::{Back, buckets, labels, queue};
use price::Weighting;

// How far the estimates have spread: so many nodes wait to spread theirs, and so many tree nodes have none.
#[derive(Clone, Copy)]
pub struct Front {
    pub count: usize,
    pub lacking: usize,
}

// How many times a node's base cost counts in an estimate.
pub fn scale_of(weighting: Weighting) -> u64
    ensures { (result ≡ clamped_scale weighting) × (1 ≤ result) × (result ≤ scale_most) }
{
    if !weighting.timed {
        return 100;
    }
    let w = labels::clamped_weighting(weighting);
    100 * (10 - w.criticality) as u64
}

// Node u waits to spread its estimate, unless no edge leads to it. Answers how many wait.
// kind, back and scale stay loose here and below: the definitions take them apart, and each contract would unpack a struct of them.
fn wait_to_spread(
    kind: &[u8],
    back: &Back,
    work: &mut [u64],
    head: &mut [u16],
    count: usize,
    u: usize,
    estimate: usize,
) -> usize
    requires { let n = length kind.now in
        (u < n) × (n ≤ nodes_most) × (8 * n ≤ length work.old) × (length head.old ≡ buckets) × (length back.now.first_back.now ≡ n + 1)
        × (estimate ≤ level_most) × (count < n) }
    ensures { let n = length kind.now in
        let before = work.old in
        let after = work.new in
        let level = estimate + clamped_base kind.now u in
        let heads = head.old in
        WaitsToSpread n back.now.first_back.now u level before after heads head.new count result
        × ((after ≡ before) ⊎ ((x : ℕ) × (after ≡ set before (3 * n + u) x))) }
{
    if back.first_back[u + 1] <= back.first_back[u] {
        return count;
    }
    let level = estimate + price::base(kind[u] as u32) as usize;
    buckets::add(work, kind.len(), head, u, level);
    count + 1
}

// Node u gets its estimate. It waits to spread it, and to be expanded if it has a distance.
#[inline(always)]
fn give(
    kind: &[u8],
    back: &Back,
    work: &mut [u64],
    head: &mut [u16],
    scale: u64,
    f: Front,
    u: usize,
    estimate: usize,
) -> Front
    requires { let n = length kind.now in
        let w = work.old in
        (u < n) × (n ≤ nodes_most) × (length head.old ≡ buckets) × (length back.now.first_back.now ≡ n + 1) × (scale ≤ scale_most)
        × (estimate ≤ level_most) × (f.count < n) × Sized n w × Tournament n w × (dist_at w u ≡ 0 → 0 < f.lacking) }
    ensures { let n = length kind.now in
        let before = work.old in
        let after = work.new in
        let level = estimate + clamped_base kind.now u in
        let heads = head.old in
        Given n u (scale * estimate) before after
        × WaitsToSpread n back.now.first_back.now u level before after heads head.new f.count result.count
        × (result.lacking ≡ choose (eqb (dist_at before u) 0) (f.lacking - 1) f.lacking) }
{
    let n = kind.len();
    let left = scale * estimate as u64;
    work[6 * n + u] = left;
    let count = wait_to_spread(kind, back, work, head, f.count, u, estimate);
    let d = work[u];
    if d == labels::FAR {
        return Front {
            count,
            lacking: f.lacking,
        };
    }
    queue::wait(work, n, u, d + left);
    let lacking = if d == 0 { f.lacking - 1 } else { f.lacking };
    Front { count, lacking }
}

// Every node before v gets this estimate, unless it has one.
fn give_before(
    kind: &[u8],
    back: &Back,
    work: &mut [u64],
    head: &mut [u16],
    scale: u64,
    start: Front,
    v: usize,
    estimate: usize,
) -> Front
    requires { let r = back_in kind.now back.now in
        let base = clamped_base kind.now in
        (v < length kind.now) × GiveReady r base scale estimate work.old head.old start.count start.lacking }
    ensures { let r = back_in kind.now back.now in
        let n = length kind.now in
        let base = clamped_base kind.now in
        let before = work.old in
        let after = work.new in
        let heads = head.old in
        ((l : Lined n base scale before heads start.count estimate)
        → GivenBefore r base scale v estimate before after heads head.new start.count result.count l)
        × (result.lacking ≡ lacking_in n after) }
{
    let n = kind.len();
    let to = labels::row_place(back.first_back, back.back_source.len(), v + 1);
    let mut f = start;
    for e in labels::row_place(back.first_back, back.back_source.len(), v)..to {
        let u = back.back_source[e] as usize;
        if u < n && work[6 * n + u] == labels::FAR {
            f = give(kind, back, work, head, scale, f, u, estimate);
        }
    }
    f
}

// Spreads the estimate of a node that waits at this level, the least.
pub fn spread_next(
    kind: &[u8],
    back: &Back,
    work: &mut [u64],
    head: &mut [u16],
    scale: u64,
    f: Front,
    level: usize,
) -> Front
    requires { let r = back_in kind.now back.now in
        let base = clamped_base kind.now in
        ((g : GiveReady r base scale level work.old head.old f.count f.lacking)
        × ((v : ℕ) × (waits g.lined v ≡ true) × (g.lined.level v ≡ level))) }
    ensures { let r = back_in kind.now back.now in
        let n = length kind.now in
        let base = clamped_base kind.now in
        let before = work.old in
        let after = work.new in
        let heads = head.old in
        ((l : Lined n base scale before heads f.count level)
        → Spread r base scale level before after heads head.new f.count result.count l)
        × (result.lacking ≡ lacking_in n after) }
{
    let v = buckets::take(work, kind.len(), head, level);
    let left = Front {
        count: f.count - 1,
        lacking: f.lacking,
    };
    give_before(kind, back, work, head, scale, left, v, level)
}

// The sinks that are still to be joined have estimate 0 and wait.
pub fn give_sinks(
    kind: &[u8],
    back: &Back,
    work: &mut [u64],
    head: &mut [u16],
    scale: u64,
    start: Front,
    in_tree: &[u8],
    sinks: &[u16],
) -> Front
    requires { let n = length kind.now in
        let w = work.old in
        (n ≤ nodes_most) × (length back.now.first_back.now ≡ n + 1) × (1 ≤ scale) × (scale ≤ scale_most) × Sized n w × Tournament n w
        × NoneGiven n w × (length head.old ≡ buckets) × ((b : ℕ) → b < buckets → get_or head.old b 0 ≡ 0) × (start.count ≡ 0)
        × (start.lacking ≡ lacking_in n w) × (n ≤ length in_tree.now)
        × ((v : ℕ) → v < n → (get_or in_tree.now v 0 ≡ 1 → ⊥) → dist_at w v ≡ far) }
    ensures { let firsts = back.now.first_back.now in
        let list = sinks.now in
        let before = work.old in
        let after = work.new in
        let base = clamped_base kind.now in
        ((sources : List ℕ) → let r = graph_of kind.now firsts sources in
        SinksGiven r base scale in_tree.now list before after head.new result.count (length list))
        × (result.lacking ≡ lacking_in (length kind.now) after) }
{
    let n = kind.len();
    let mut f = start;
    for sink in sinks {
        let s = *sink as usize;
        if s < n && in_tree[s] != 1 && work[6 * n + s] == labels::FAR {
            f = give(kind, back, work, head, scale, f, s, 0);
        }
    }
    f
}
