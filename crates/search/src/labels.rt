// Labels spread from the tree along the edges, the nearest node first (Dijkstra). A step costs the price of the node that it leads to, so
// the first label that a node gets is its distance; only a lower predecessor as near as the first one can still come.
// On the way to goals, a node that leads to dead ends alone (a pin of other nets' sinks) gets its label and is passed over: no path to a
// goal goes over it.
// Every number is read within its bounds: this is defined for all tables, and costs what it visits.
// The work slice of n nodes: labels from 0, predecessors from n (lower parts) with the waiting nodes (upper parts), their keys from 2n.
ghost use Rattle.std.specs.Prelude.{false, ◌≡◌, ◌+◌, ◌*◌, ◌≤◌, ◌<◌, min, length, get_or};
ghost use Rattle.price.specs.Bounds.{nodes_most};
ghost use Rattle.price.specs.Timed.{weighed_most};
ghost use Rattle.search.specs.Block.{graph_in};
ghost use Rattle.search.specs.Turn.{congestion_in};
ghost use Rattle.search.specs.Clamped.{price_read, Long};
ghost use Rattle.search.specs.Clamped.{clamped_weighting};
ghost use Rattle.search.specs.Labels.{label_at, from_at, with_from};
ghost use Rattle.search.specs.Spread.{DeadEnd, LeadsNowhere, Idle, RowReady, Labelled, GoalMet, Lowered};
ghost use Rattle.search.specs.Spread.{EdgeRelaxed, LabelReady, RelaxReady};
ghost use Rattle.search.specs.Spread.{SettleReady, NodeSettled, RunReady, SpreadStopped};

use crate::{Prices, Tables, heap, weighing};
use price::{Numbers, Weighting};

// No path; as a label: none yet.
// No Option: the work slice holds numbers, and the specification has this one for a node without a path.
pub const FAR: u64 = 18446744073709551615;

// No label yet on a goal; elsewhere it is FAR. Every label is below both.
pub const GOAL: u64 = 18446744073709551614;

// How far the labels have spread: the least label of a goal, FAR where none has one, and how many nodes wait. It is no Option, since FAR is
// above every label: one comparison asks whether a goal has a label and how near it is.
#[derive(Clone, Copy, Debug, PartialEq, Eq)]
pub struct Reach {
    pub best: u64,
    pub count: usize,
}

// How delay is weighed, with the criticality read within its bounds.
pub fn clamped_weighting(weighting: Weighting) -> Weighting
    ensures { result ≡ clamped_weighting weighting }
{
    Weighting {
        timed: weighting.timed,
        criticality: weighting.criticality.min(price::CRITICALITY_MOST),
    }
}

// The price of node v, each number read within its bounds.
pub fn clamped_price(tables: &Tables, prices: &Prices, v: usize) -> u64
    requires lists_long { Long tables.now prices.now }
    requires v_in_bounds { v < length tables.now.kind.now }
    ensures { (result ≡ price_read tables.now prices.now v) × (result ≤ weighed_most prices.now.weighting) }
{
    let weighting = prices.weighting;
    let numbers = Numbers {
        kind: (tables.kind[v] as u32).min(price::KIND_MOST),
        factor: prices.factor.min(price::FACTOR_MOST),
        others: (prices.others[v] as u32).min(price::OTHERS_MOST),
        capacity: (tables.capacity[v] as u32).clamp(1, price::CAPACITY_MOST),
        history: prices.history[v].clamp(1, weighing::history_bound(weighting)),
    };
    let delay = weighing::delay_at(weighting, prices.delay, v).min(price::DELAY_MOST);
    price::weighed_price(clamped_weighting(weighting), numbers, delay).unwrap_or(0)
}

// The least label of a goal, after a node that had `old` got label d.
fn met(old: u64, d: u64, best: u64) -> u64
    ensures { GoalMet old d best result }
{
    if old == GOAL { d.min(best) } else { best }
}

// Node u comes before v.
fn set_from(work: &mut [u64], n: usize, u: usize, v: usize)
    requires { (u < n) × (v < n) × (n ≤ nodes_most) × (3 * n ≤ length work.old) }
    ensures { work.new ≡ with_from n work.old u v }
{
    work[n + v] = work[n + v] / heap::UPPER * heap::UPPER + u as u64;
}

// Where the row of node u begins in table 4, its end at most.
pub fn row_place(first_edge: &[u32], edges: usize, u: usize) -> usize
    requires { u < length first_edge.now }
    ensures { result ≡ min (get_or first_edge.now u 0) edges }
{
    (first_edge[u] as usize).min(edges)
}

// An edge to w matters to paths to goals: w is a node with edges, or a goal without a label.
fn matters(tables: &Tables, work: &[u64], w: usize) -> bool
    requires { let n = length tables.now.kind.now in
        (n ≤ nodes_most) × (length tables.now.first_edge.now ≡ n + 1) × (n ≤ length work.now) }
    ensures { result ≡ false → w < length tables.now.kind.now → DeadEnd tables.now.first_edge.now work.now w }
{
    w < tables.kind.len() && (tables.first_edge[w] < tables.first_edge[w + 1] || work[w] == GOAL)
}

// Some edge of v, as far as table 4 has its row, matters.
fn leads_on(tables: &Tables, work: &[u64], v: usize) -> bool
    requires { RowReady (length tables.now.kind.now) tables.now.first_edge.now work.now v }
    ensures { let t = tables.now in
        (result ≡ false → LeadsNowhere (length t.kind.now) t.first_edge.now t.edge_target.now work.now v) }
{
    let to = row_place(tables.first_edge, tables.edge_target.len(), v + 1);
    for e in tables.first_edge[v] as usize..to {
        if matters(tables, work, tables.edge_target[e] as usize) {
            return true;
        }
    }
    false
}

// Node v, which has its label, has something to spread: where labels are to reach goals alone, an edge that matters, else any edge.
fn has_to_wait(tables: &Tables, goals: bool, work: &[u64], v: usize) -> bool
    requires { RowReady (length tables.now.kind.now) tables.now.first_edge.now work.now v }
    ensures { let t = tables.now in
        (result ≡ false → Idle (length t.kind.now) t.first_edge.now t.edge_target.now goals work.now v) }
{
    if goals {
        leads_on(tables, work, v)
    } else {
        tables.first_edge[v] < tables.first_edge[v + 1]
    }
}

// Node v gets its label, d, from u. It waits, unless it has nothing to spread.
fn label(
    tables: &Tables,
    goals: bool,
    work: &mut [u64],
    u: usize,
    v: usize,
    d: u64,
    r: Reach,
) -> Reach
    requires { LabelReady (length tables.now.kind.now) tables.now.first_edge.now work.old r.count u v }
    ensures labelled { let t = tables.now in
        let n = length t.kind.now in
        Labelled n t.first_edge.now t.edge_target.now goals u v d work.old work.new r.count result.count }
    ensures goal_met { GoalMet (label_at work.old v) d r.best result.best }
{
    let n = tables.kind.len();
    let best = met(work[v], d, r.best);
    work[v] = d;
    set_from(work, n, u, v);
    if has_to_wait(tables, goals, work, v) {
        heap::add(work, n, r.count, v, d);
        return Reach {
            best,
            count: r.count + 1,
        };
    }
    Reach { best, ..r }
}

// Node v has its label already, from its predecessor; u, of label d, takes that one's place where it is as near and lower. That it is as
// near comes first: it is rare, so that the processor foresees it, and which of two numbers is lower it doesn't.
fn lower(work: &mut [u64], n: usize, u: usize, v: usize, d: u64)
    requires { (u < n) × (v < n) × (n ≤ nodes_most) × (3 * n ≤ length work.old) × (from_at n work.old v < n) }
    ensures { Lowered n u v d work.old work.new }
{
    let w = (work[n + v] % heap::UPPER) as usize;
    if work[w] == d && u < w {
        set_from(work, n, u, v);
    }
}

// Looks at the edge from u, of label d, to v.
// u, v and d stay loose: the definitions take them apart, and each contract would unpack a struct of them.
fn relax(
    tables: &Tables,
    prices: &Prices,
    goals: bool,
    work: &mut [u64],
    u: usize,
    v: usize,
    d: u64,
    r: Reach,
) -> Reach
    requires { let t = tables.now in
        RelaxReady t.kind.now t.capacity.now (congestion_in prices.now) t.first_edge.now work.old r.count u v d }
    ensures { let price = price_read tables.now prices.now in
        let t = tables.now in
        let n = length t.kind.now in
        EdgeRelaxed n t.first_edge.now t.edge_target.now goals price u v d work.old work.new r.count result.count r.best result.best }
{
    let n = tables.kind.len();
    if n <= v {
        return r;
    }
    let old = work[v];
    if GOAL <= old {
        let p = clamped_price(tables, prices, v);
        return label(tables, goals, work, u, v, d + p, r);
    }
    if 0 < old {
        lower(work, n, u, v, d);
    }
    r
}

// Settles node u: looks at every edge of its row, as far as table 4 has it.
fn settle(
    tables: &Tables,
    prices: &Prices,
    goals: bool,
    work: &mut [u64],
    u: usize,
    start: Reach,
) -> Reach
    requires { let b = graph_in tables.now in
        let price = price_read tables.now prices.now in
        Long tables.now prices.now × SettleReady b price goals work.old start.count u }
    ensures { let b = graph_in tables.now in
        let price = price_read tables.now prices.now in
        let level = label_at work.old u in
        NodeSettled b price goals level u work.old work.new start.count result.count start.best result.best }
{
    let d = work[u];
    let to = row_place(tables.first_edge, tables.edge_target.len(), u + 1);
    let mut r = start;
    for e in row_place(tables.first_edge, tables.edge_target.len(), u)..to {
        let v = tables.edge_target[e] as usize;
        r = relax(tables, prices, goals, work, u, v, d, r);
    }
    r
}

// Settles the nearest waiting node again and again, until none waits or none leads to a goal as near as the nearest so far. Answers the
// label of that goal, FAR where no goal has one. `last_step` is at most the price of every goal; `waits` nodes wait, the tree's.
// With `goals` only paths to goals count: nodes that lead to dead ends alone don't wait, and a dead end's label may be too high or missing.
pub fn settle_all(
    tables: &Tables,
    prices: &Prices,
    goals: bool,
    work: &mut [u64],
    waits: usize,
    last_step: u64,
) -> u64
    requires { let b = graph_in tables.now in
        let price = price_read tables.now prices.now in
        Long tables.now prices.now × RunReady b price goals work.old waits last_step }
    ensures { let b = graph_in tables.now in
        let price = price_read tables.now prices.now in
        SpreadStopped b price goals last_step work.old work.new result }
{
    // Copies of its own: what stands in them stays in registers over the loop.
    let (tables, prices) = (*tables, *prices);
    let n = tables.kind.len();
    let mut r = Reach {
        best: FAR,
        count: waits,
    };
    // No `for`: each node that is settled may let others wait.
    while 0 < r.count {
        let u = (work[n] / heap::UPPER) as usize;
        if r.best < work[u] + last_step {
            return r.best;
        }
        let rest = r.count - 1;
        heap::take(work, n, rest);
        r = settle(&tables, &prices, goals, work, u, Reach { count: rest, ..r });
    }
    r.best
}
