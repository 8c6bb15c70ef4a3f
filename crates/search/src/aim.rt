// The search that aims: nodes leave the queue by distance and estimate together. A node's first distance need not be its last, so that its
// key in the queue may fall; a node that has left keeps its own.
// The work slice of n nodes: distances from 0, the queue from n, predecessors from 4n, estimates from 6n.
ghost use Rattle.std.specs.Prelude.{List, ◌≡◌, ℕ, ◌+◌, ◌*◌, ◌^◌, ◌≤◌, ◌<◌, min, length};
ghost use Rattle.search.specs.Block.{has_edge};
ghost use Rattle.search.specs.Block.{graph_in, back_in};
ghost use Rattle.search.specs.Clamped.{price_read, Long};
ghost use Rattle.search.specs.Distance.{far};
ghost use Rattle.search.specs.ByTarget.{in_both};
ghost use Rattle.search.specs.Layout.{dist_at, estimate_at, Tournament};
ghost use Rattle.search.specs.Estimates.{reach_most};
ghost use Rattle.search.specs.Aiming.{Shortened, AimedOver, AimedRow, AimRowReady, BestAim, LowAim, Expanded, ExpandReady};

use crate::{Back, Prices, Tables, labels, queue};

// How far the search has come: the least distance of a sink, and the least of a node, outside the tree, that had no estimate when it got
// this distance. FAR where there is none, so that `min` and `<` need no case for it, as they would for an Option.
#[derive(Clone, Copy)]
pub struct Reach {
    pub best: u64,
    pub low: u64,
}

// The tables by target have the edge from u to v.
fn listed(kind: &[u8], back: &Back, u: usize, v: usize) -> bool
    requires { (v < length kind.now) × (length back.now.first_back.now ≡ length kind.now + 1) }
    ensures { result ≡ has_edge (back_in kind.now back.now) v u }
{
    // A faulty row may end before it begins, so it is a range of places and no slice.
    let to = labels::row_place(back.first_back, back.back_source.len(), v + 1);
    for e in labels::row_place(back.first_back, back.back_source.len(), v)..to {
        if back.back_source[e] as usize == u {
            return true;
        }
    }
    false
}

// Node v has a shorter way, over u: it is at distance d. It waits, if it has an estimate.
fn shorten(work: &mut [u64], n: usize, u: usize, v: usize, d: u64, r: Reach) -> Reach
    requires u_lt_n { (u < n) × (v < n) × (8 * n ≤ length work.old) × Tournament n work.old × (d ≤ reach_most) × (d < dist_at work.old v) }
    requires v_bound { (estimate_at n work.old v ≡ far → ⊥) → d + estimate_at n work.old v < 2 ^ 64 }
    ensures { let before = work.old in
        let after = work.new in
        Shortened n u v d before after × (BestAim n r.best before → BestAim n result.best after)
        × (LowAim n r.low before → LowAim n result.low after) }
{
    work[v] = d;
    work[4 * n + v] = u as u64;
    let estimate = work[6 * n + v];
    if estimate == labels::FAR {
        return Reach {
            best: r.best,
            low: d.min(r.low),
        };
    }
    queue::wait(work, n, v, d + estimate);
    if estimate == 0 {
        return Reach {
            best: d.min(r.best),
            low: r.low,
        };
    }
    r
}

// Looks at the edge from u to v, over which v is at distance d: nothing changes unless that is less than before, or as much over a lower
// node, and the tables by target have the edge too.
fn aim(kind: &[u8], back: &Back, work: &mut [u64], u: usize, v: usize, d: u64, r: Reach) -> Reach
    requires ready { let n = length kind.now in
        (u < n) × (v < n) × (8 * n ≤ length work.old) × Tournament n work.old × (length back.now.first_back.now ≡ n + 1)
        × (d ≤ reach_most) }
    requires reach_fits { let n = length kind.now in
        ((estimate_at n work.old v ≡ far → ⊥) → d + estimate_at n work.old v < 2 ^ 64) }
    ensures { let n = length kind.now in
        let before = work.old in
        let after = work.new in
        let listed = has_edge (back_in kind.now back.now) v u in
        AimedOver n u v d listed before after × (BestAim n r.best before → BestAim n result.best after)
        × (LowAim n r.low before → LowAim n result.low after) }
{
    let n = kind.len();
    let old = work[v];
    if old < d || (old == d && work[4 * n + v] <= u as u64) || !listed(kind, back, u, v) {
        return r;
    }
    if d < old {
        return shorten(work, n, u, v, d, r);
    }
    work[4 * n + v] = u as u64;
    r
}

// Looks at every edge of u that leads to a node farther away.
fn aim_row(
    tables: &Tables,
    prices: &Prices,
    back: &Back,
    work: &mut [u64],
    u: usize,
    start: Reach,
) -> Reach
    requires { let n = length tables.now.kind.now in
        Long tables.now prices.now × (length tables.now.first_edge.now ≡ n + 1) × (length back.now.first_back.now ≡ n + 1)
        × AimRowReady n work.old u }
    ensures { let kinds = tables.now.kind.now in
        let n = length kinds in
        let b = graph_in tables.now in
        let by_target = back_in kinds back.now in
        let before = work.old in
        let after = work.new in
        AimedRow n (in_both b by_target) (price_read tables.now prices.now) u before after
        × (BestAim n start.best before → BestAim n result.best after) × (LowAim n start.low before → LowAim n result.low after) }
{
    let n = tables.kind.len();
    let d = work[u];
    let to = labels::row_place(tables.first_edge, tables.edge_target.len(), u + 1);
    let mut r = start;
    for e in labels::row_place(tables.first_edge, tables.edge_target.len(), u)..to {
        let v = tables.edge_target[e] as usize;
        if v < n && d < work[v] {
            let p = labels::clamped_price(tables, prices, v);
            r = aim(tables.kind, back, work, u, v, d + p, r);
        }
    }
    r
}

// Expands the node of least key.
pub fn expand_next(
    tables: &Tables,
    prices: &Prices,
    back: &Back,
    work: &mut [u64],
    r: Reach,
) -> Reach
    requires { let n = length tables.now.kind.now in
        Long tables.now prices.now × (length tables.now.first_edge.now ≡ n + 1) × (length back.now.first_back.now ≡ n + 1)
        × ExpandReady n work.old }
    ensures { let kinds = tables.now.kind.now in
        let n = length kinds in
        let b = graph_in tables.now in
        let by_target = back_in kinds back.now in
        let price = price_read tables.now prices.now in
        let before = work.old in
        let after = work.new in
        ((u : ℕ) × Expanded n (in_both b by_target) price before after u) × (BestAim n r.best before → BestAim n result.best after)
        × (LowAim n r.low before → LowAim n result.low after) }
{
    let n = tables.kind.len();
    let u = queue::nearest(work, n);
    queue::wait(work, n, u, labels::FAR);
    aim_row(tables, prices, back, work, u, r)
}
