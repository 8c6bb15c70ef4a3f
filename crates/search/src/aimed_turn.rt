// One turn of a net by the search that aims: A* with consistent estimates. Estimates spread from its unjoined sinks against the edges, and
// the search follows them, both in one order of levels: a node is expanded once no node that still lacks an estimate can have a lower key.
// So estimates are given as far as the joined sink's distance and no farther.
ghost use Rattle.std.specs.Prelude.{Bool, true, false, List, ◌≡◌, ◌⊎◌, ℕ, ◌+◌, ◌*◌, ◌≤◌, ◌<◌, min, length, get_or};
ghost use Rattle.price.specs.Bounds.{nodes_most};
ghost use Rattle.search.specs.Block.{block_of, graph_of};
ghost use Rattle.search.specs.Distance.{far};
ghost use Rattle.search.specs.Block.{block_in, back_in};
ghost use Rattle.search.specs.Turn.{congestion_in};
ghost use Rattle.search.specs.Replies.{sinks_most};
ghost use Rattle.search.specs.Priceable.{Fitted};
ghost use Rattle.search.specs.Layout.{SameBut};
ghost use Rattle.search.specs.ByTarget.{Counted};
ghost use Rattle.search.specs.Estimates.{level_most, scale_most, reach_most};
ghost use Rattle.search.specs.AimedTurn.{LeastLacking, Halts, PredecessorsMoved, Started, TurnReady, SinksAimed, Readable, AimedRead};
ghost use Rattle.search.specs.AimedReplies.{aimed_path_reply_of, aimed_turn_reply};

use crate::aim::Reach;
use crate::buckets::BUCKETS;
use crate::estimate::Front;
use crate::{AimedTurn, Back, Prices, Tables, aim, buckets, estimate, fill, labels, turn};

// The distance of the joined sink, as `Reach` has it, and how many nodes were expanded.
#[derive(Clone, Copy)]
struct Aimed {
    cost: u64,
    expanded: u32,
}

// Entries from `from` to below `to` hold FAR.
fn fill_far(work: &mut [u64], from: usize, to: usize)
    requires { (from ≤ to) × (to ≤ length work.old) }
    ensures { let after = work.new in
        SameBut from to work.old after × ((j : ℕ) → from ≤ j → j < to → get_or after j 0 ≡ far) }
{
    fill::fill(work, from, to, labels::FAR);
}

// Tree nodes are at distance 0, the others have no distance. No node has an estimate, and none waits. Answers how many tree nodes there
// are.
fn start(in_tree: &[u8], work: &mut [u64], n: usize) -> usize
    requires { (n ≤ nodes_most) × (n ≤ length in_tree.now) × (8 * n ≤ length work.old) }
    ensures { Started n in_tree.now work.old work.new result }
{
    fill_far(work, 0, 3 * n);
    fill_far(work, 6 * n, 7 * n);
    let mut count = 0;
    let mut v = turn::next_marked(in_tree, 0, n);
    // No `for`: the next place is the next tree node, many nodes on.
    while v < n {
        work[v] = 0;
        count += 1;
        v = turn::next_marked(in_tree, v + 1, n);
    }
    count
}

// No node that lacks an estimate has a lower key: such a tree node is at distance 0, another at least `low` far, and its estimate is at
// least the least level of a waiting node.
fn least_lacking(scale: u64, level: usize, f: Front, low: u64) -> u64
    requires { (scale ≤ scale_most) × (level ≤ level_most) × ((low ≡ far) ⊎ (low ≤ reach_most)) }
    ensures { LeastLacking scale level f.count f.lacking low result }
{
    if f.count == 0 {
        return labels::FAR;
    }
    if 0 < f.lacking {
        return scale * level as u64;
    }
    if low == labels::FAR {
        return labels::FAR;
    }
    low + scale * level as u64
}

// No node is left that has a key, this least one or one that is coming, or all such keys are above the nearest sink's distance.
fn done(least: u64, coming: u64, best: u64) -> bool
    ensures { Halts least coming best result }
{
    let next = least.min(coming);
    next == labels::FAR || best < next
}

// The node of least key is expanded where no lower one can come, else the estimate of least level is spread, until nothing is left to be
// expanded or its key is above the nearest sink's distance.
fn run(
    tables: &Tables,
    back: &Back,
    prices: &Prices,
    work: &mut [u64],
    in_tree: &[u8],
    sinks: &[u16],
    trees: usize,
) -> Aimed
    requires { let b = block_in tables.now in
        let r = back_in tables.now.kind.now back.now in
        let c = congestion_in prices.now in
        TurnReady b r c in_tree.now sinks.now work.old
        × ((w : List ℕ) × Started (length tables.now.kind.now) in_tree.now w work.old trees) }
    ensures { let b = block_in tables.now in
        let r = back_in tables.now.kind.now back.now in
        let c = congestion_in prices.now in
        let marks = in_tree.now in
        let list = sinks.now in
        let before = work.old in
        let after = work.new in
        (firsts targets backs sources : List ℕ) → Counted b r firsts targets backs sources
        → SinksAimed b r c marks list before after firsts targets backs sources result.cost result.expanded }
{
    // Copies of its own: what stands in them stays in registers over the loop.
    let (tables, back, prices) = (*tables, *back, *prices);
    let n = tables.kind.len();
    let scale = estimate::scale_of(prices.weighting);
    let mut head = [0u16; BUCKETS];
    let begun = Front {
        count: 0,
        lacking: trees,
    };
    let mut f = estimate::give_sinks(
        tables.kind,
        &back,
        work,
        &mut head,
        scale,
        begun,
        in_tree,
        sinks,
    );
    let mut r = Reach {
        best: labels::FAR,
        low: labels::FAR,
    };
    let mut expanded = 0u32;
    let mut level = 0;
    loop {
        if 0 < f.count {
            level = buckets::lowest(&head, level);
        }
        let least = work[n + 1];
        let coming = least_lacking(scale, level, f, r.low);
        if done(least, coming, r.best) {
            return Aimed {
                cost: r.best,
                expanded,
            };
        }
        if least <= coming {
            expanded += 1;
            r = aim::expand_next(&tables, &prices, &back, work, r);
        } else {
            f = estimate::spread_next(tables.kind, &back, work, &mut head, scale, f, level);
        }
    }
}

// Predecessors where a path is read off: from n on.
fn move_predecessors(work: &mut [u64], n: usize)
    requires { 8 * n ≤ length work.old }
    ensures { PredecessorsMoved n work.old work.new }
{
    work.copy_within(4 * n..5 * n, n);
}

// Leaves the path to the joined sink at the beginning of the work slice, and 0 in the rest of it.
fn read_aimed(sinks: &[u16], in_tree: &[u8], work: &mut [u64], n: usize, found: Aimed) -> AimedTurn
    requires { Readable n in_tree.now sinks.now work.old found.cost }
    ensures { let marks = in_tree.now in
        let list = sinks.now in
        let before = work.old in
        AimedRead n marks list before found.cost found.expanded result.joins result.expanded work.new }
{
    let cost = found.cost;
    if cost == labels::FAR {
        fill::fill(work, 0, 8 * n, 0);
        return AimedTurn {
            joins: None,
            expanded: 0,
        };
    }
    move_predecessors(work, n);
    let joins = turn::read_path(sinks, in_tree, work, n, cost);
    fill::fill(work, 3 * n, 8 * n, 0);
    AimedTurn {
        joins: Some(joins),
        expanded: found.expanded,
    }
}

// One turn: joins the nearest sink that is still to be joined, where every list has its length.
pub fn join(
    tables: &Tables,
    back: &Back,
    prices: &Prices,
    work: &mut [u64],
    in_tree: &[u8],
    sinks: &[u16],
) -> AimedTurn
    requires { let b = block_in tables.now in
        let c = congestion_in prices.now in
        Fitted b c in_tree.now sinks.now work.old × (length back.now.first_back.now ≡ length tables.now.kind.now + 1) }
    ensures { let kinds = tables.now.kind.now in
        let limits = tables.now.capacity.now in
        let b = block_in tables.now in
        let r = back_in kinds back.now in
        let c = congestion_in prices.now in
        let marks = in_tree.now in
        let list = sinks.now in
        let before = work.old in
        let after = work.new in
        (firsts targets backs sources : List ℕ) → Counted b r firsts targets backs sources
        → aimed_path_reply_of (Ok result) after
        ≡ aimed_turn_reply (block_of kinds limits firsts targets) (graph_of kinds backs sources) c marks list before }
{
    let n = tables.kind.len();
    let trees = start(in_tree, work, n);
    let found = run(tables, back, prices, work, in_tree, sinks, trees);
    read_aimed(sinks, in_tree, work, n, found)
}
