// Following a log: whether a record's path follows the job, in one pass over it, and what the turn costs at least.
ghost use Rattle.std.specs.Prelude.{true, [], ◌∷◌, ◌≡◌, ◌+◌, ◌*◌, ◌≤◌, ◌<◌, ltb, length, get_or, drop};
ghost use Rattle.std.proofs.Math.Seq.{slice};
ghost use Rattle.price.specs.Test.{choose};
ghost use Rattle.price.specs.Timed.{weighed_most};
ghost use Rattle.search.specs.Block.{has_edge};
ghost use Rattle.search.specs.Block.{block_in, graph_in};
ghost use Rattle.search.specs.Turn.{congestion_in};
ghost use Rattle.search.specs.Tables.{Graph};
ghost use Rattle.search.specs.Turn.{price_at, turn};
ghost use Rattle.search.specs.Replies.{sink_list_sound};
ghost use Rattle.search.specs.Priceable.{PriceReady};
ghost use Rattle.negotiation.specs.Resume.{record_path};
ghost use Rattle.negotiation.specs.Steps.{SameFrom, TurnReady};
ghost use Rattle.negotiation.specs.ResumeSteps.{step_passes, pass_cost, RecordReady, PassReady, costs_of, PathMarked};
ghost use Rattle.negotiation.specs.ResumeSteps.{cost_is, named_cost, frame_follows, turn_passes, least_asked};
ghost use Rattle.job.specs.Steps.{Stored};

use crate::tariff::Tariff;
use price::{Numbers, Weighting};
use search::{Prices, Tables};

// 2^64 − 1, which no cost reaches.
// No Option of a cost: the definition `least_asked` answers with this number too, and what is asked is only whether it is below a cost.
const FAR: u64 = 18446744073709551615;

// There is an edge from node u to v.
fn has_edge(tables: &Tables, u: usize, v: usize) -> bool
    requires { Graph (graph_in tables.now) × (u < length tables.now.kind.now) }
    ensures { result ≡ has_edge (graph_in tables.now) u v }
{
    let from = tables.first_edge[u] as usize;
    let to = tables.first_edge[u + 1] as usize;
    for e in from..to {
        if tables.edge_target[e] as usize == v {
            return true;
        }
    }
    false
}

// The delay of node v; it is read only where it is weighed.
// search has the same for itself: these lines are plainer than one more public function of it.
fn delay_at(weighting: Weighting, delay: &[u16], v: usize) -> u32
    requires { weighting.timed ≡ true → v < length delay.now }
    ensures { weighting.timed ≡ true → result ≡ get_or delay.now v 0 }
{
    if weighting.timed { delay[v] as u32 } else { 0 }
}

// The price of node v.
fn node_price(tables: &Tables, prices: &Prices, v: usize) -> u64
    requires { PriceReady tables.now.kind.now tables.now.capacity.now (congestion_in prices.now) v }
    ensures { (result ≡ price_at (block_in tables.now) (congestion_in prices.now) v) × (result ≤ weighed_most prices.now.weighting) }
{
    let numbers = Numbers {
        kind: tables.kind[v] as u32,
        factor: prices.factor,
        others: prices.others[v] as u32,
        capacity: tables.capacity[v] as u32,
        history: prices.history[v],
    };
    let d = delay_at(prices.weighting, prices.delay, v);
    // Every number is within its bounds, so that it is no 0.
    let Ok(price) = price::weighed_price(prices.weighting, numbers, d) else {
        return 0;
    };
    price
}

// 1 where no node comes after the place before `next`, else 0.
fn last_mark(next: usize, to: usize) -> u8
    ensures { result ≡ choose (ltb next to) 0 1 }
{
    (to <= next) as u8
}

// The step from node u to v goes along an edge to a node without a mark, which is a goal or not as `last` says.
#[tactic(auto, unfolding(crate::specs::ResumeSteps::step_passes))]
fn step_passes(tables: &Tables, goals: &[u8], in_tree: &[u8], u: usize, v: usize, last: u8) -> bool
    requires graph { Graph (graph_in tables.now) × (u < length tables.now.kind.now) }
    requires goals_len { let nodes = length tables.now.kind.now in
        (length goals.now ≡ nodes) × (length in_tree.now ≡ nodes) }
    ensures { result ≡ step_passes (graph_in tables.now) goals.now in_tree.now u v last }
{
    has_edge(tables, u, v) && in_tree[v] == 0 && goals[v] == last
}

// The cost of the path in the log from `from` to below `to`, whose nodes are marked. None where it strays: its first node alone has a mark,
// and each step passes, or else marks may be left behind.
fn path_cost(
    tables: &Tables,
    prices: &Prices,
    goals: &[u8],
    in_tree: &mut [u8],
    log: &[u32],
    from: usize,
    to: usize,
) -> Option<u64>
    requires { PassReady (block_in tables.now) (congestion_in prices.now) goals.now in_tree.old log.now from to }
    ensures value { let block = block_in tables.now in
        let congestion = congestion_in prices.now in
        let path = slice from to log.now in
        costs_of result ≡ pass_cost block (price_at block congestion) goals.now in_tree.old path }
    ensures path_marked { PathMarked result (slice from to log.now) in_tree.old in_tree.new }
{
    let mut u = log[from] as usize;
    if tables.kind.len() <= u {
        return None;
    }
    if in_tree[u] != 1 {
        return None;
    }
    let mut cost: u64 = 0;
    for k in from + 1..to {
        let v = log[k] as usize;
        let last = last_mark(k + 1, to);
        if !step_passes(tables, goals, in_tree, u, v, last) {
            return None;
        }
        cost += node_price(tables, prices, v);
        in_tree[v] = 1;
        u = v;
    }
    Some(cost)
}

// The words of a cost: its low and its high half stand in the record at `at`.
fn cost_is(log: &[u32], at: usize, cost: u64) -> bool
    requires { at + 6 ≤ length log.now }
    ensures { result ≡ cost_is (drop at log.now) (cost ∷ []) }
{
    log[at + 3] as u64 == cost % 4294967296 && log[at + 4] as u64 == cost / 4294967296
}

// The record at `at` is whole, of this iteration and net, and its path, of two to `nodes` nodes, ends at its sink.
fn frame_follows(log: &[u32], at: usize, iteration: u32, net: u32, nodes: usize) -> bool
    requires { at ≤ length log.now }
    ensures { result ≡ frame_follows nodes iteration net (drop at log.now) }
{
    if log.len() - at < 6 {
        return false;
    }
    let count = log[at + 5] as usize;
    2 <= count
        && count <= nodes
        && 6 + count <= log.len() - at
        && log[at] == iteration
        && log[at + 1] == net
        && log[at + 5 + count] == log[at + 2]
}

// The words of the record at the tariff's place, none where it doesn't follow; its path is marked.
pub fn follow_turn(
    tables: &Tables,
    prices: &Prices,
    net: u32,
    tariff: Tariff,
    goals: &[u8],
    in_tree: &mut [u8],
    log: &[u32],
) -> Option<usize>
    requires { RecordReady (block_in tables.now) (congestion_in prices.now) goals.now in_tree.old log.now tariff.words }
    ensures value { let block = block_in tables.now in
        let congestion = congestion_in prices.now in
        let ws = drop tariff.words log.now in
        let passes = turn_passes block (price_at block congestion) goals.now in_tree.old tariff.iteration net ws in
        result ≡ choose passes (Some (6 + get_or ws 5 0)) None }
    ensures stored { let ws = drop tariff.words log.now in
        ((result ≡ None → ⊥) → Stored 1 (record_path ws) in_tree.old in_tree.new) }
{
    let at = tariff.words;
    if !frame_follows(log, at, tariff.iteration, net, tables.kind.len()) {
        return None;
    }
    let to = at + 6 + log[at + 5] as usize;
    let cost = path_cost(tables, prices, goals, in_tree, log, at + 6, to)?;
    if cost_is(log, at, cost) {
        Some(to - at)
    } else {
        None
    }
}

// The cost that the record at `at` names.
pub fn named_cost(log: &[u32], at: usize) -> u64
    requires { at + 6 ≤ length log.now }
    ensures { result ≡ named_cost (drop at log.now) }
{
    log[at + 3] as u64 + log[at + 4] as u64 * 4294967296
}

// The least cost of a path that a turn can take, FAR where it is stuck, and where none is asked for.
pub fn least_cost(
    asked: bool,
    tables: &Tables,
    prices: &Prices,
    work: &mut [u64],
    in_tree: &[u8],
    sinks: &[u16],
) -> u64
    requires { let nodes = length tables.now.kind.now in
        TurnReady (block_in tables.now) (congestion_in prices.now) in_tree.now work.old × (sink_list_sound nodes sinks.now ≡ true) }
    ensures value { let block = block_in tables.now in
        let made = turn block (price_at block (congestion_in prices.now)) in_tree.now sinks.now in
        result ≡ least_asked asked made }
    ensures same_from { SameFrom (8 * length tables.now.kind.now) work.old work.new }
{
    if !asked {
        return FAR;
    }
    // Tables and numbers keep their rules: nothing is refused.
    let Ok(joins) = search::cheapest_path(tables, prices, work, in_tree, sinks) else {
        return FAR;
    };
    match joins {
        Some(joins) => joins.cost,
        None => FAR,
    }
}
