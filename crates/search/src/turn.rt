// One turn of a net: labels spread from its tree until its nearest sink is reached, and the path is read off.
ghost use Rattle.std.specs.Prelude.{false, ◌≡◌, ◌*◌, ◌≤◌, ◌<◌, length, take};
ghost use Rattle.price.specs.Bounds.{nodes_most};
ghost use Rattle.search.specs.Block.{block_in};
ghost use Rattle.search.specs.Turn.{congestion_in};
ghost use Rattle.search.specs.Clamped.{price_read, Long};
ghost use Rattle.search.specs.Turn.{turn};
ghost use Rattle.search.specs.Replies.{turn_reply, path_reply_of};
ghost use Rattle.search.specs.Layout.{SameBut};
ghost use Rattle.search.specs.Labels.{label_at};
ghost use Rattle.search.specs.TurnWork.{Blank, Unmarked, PassedOver, NextMarked};
ghost use Rattle.search.specs.TurnWork.{TreeMarked, GoalsMarked, LeastGoal, FirstAt, Leads, path_in, Found, Read};
ghost use Rattle.search.specs.Priceable.{Fitted};

use crate::{Joins, Prices, Tables, fill, heap, labels};

// How many nodes are passed over at a time.
const STRETCH: usize = 64;

// Above every price.
const ANY_PRICE_MOST: u64 = 1000000000000000000;

// No node has a label.
fn fill_far(work: &mut [u64], n: usize)
    requires { n ≤ length work.old }
    ensures { Blank n work.old work.new n }
{
    fill::fill(work, 0, n, labels::FAR);
}

// Some node from `from` to below `to` is in the tree. Without early exit, so that it is vector code.
fn some_marked(in_tree: &[u8], from: usize, to: usize) -> bool
    requires { (from ≤ to) × (to ≤ length in_tree.now) }
    ensures { result ≡ false → Unmarked in_tree.now from to }
{
    let mut some = false;
    for v in from..to {
        some |= in_tree[v] == 1;
    }
    some
}

// A place from `from` on, with no tree node between: passes over many nodes at a time.
fn pass_over(in_tree: &[u8], from: usize, n: usize) -> usize
    requires { (from ≤ n) × (n ≤ nodes_most) × (n ≤ length in_tree.now) }
    ensures { PassedOver in_tree.now from n result }
{
    let mut v = from;
    // No `for`: it goes on in stretches, and the place that it came to is the answer.
    while v + STRETCH <= n {
        if some_marked(in_tree, v, v + STRETCH) {
            return v;
        }
        v += STRETCH;
    }
    v
}

// The first tree node from `from` on, n where there is none.
// No Option: n stands for none, where the loops that ask end.
pub fn next_marked(in_tree: &[u8], from: usize, n: usize) -> usize
    requires { (from ≤ n) × (n ≤ nodes_most) × (n ≤ length in_tree.now) }
    ensures { NextMarked in_tree.now from n result }
{
    for v in pass_over(in_tree, from, n)..n {
        if in_tree[v] == 1 {
            return v;
        }
    }
    n
}

// Tree nodes have label 0 and wait, the others have none: how many wait.
pub fn mark_tree(in_tree: &[u8], work: &mut [u64], n: usize) -> usize
    requires { (n ≤ nodes_most) × (n ≤ length in_tree.now) × (3 * n ≤ length work.old) }
    ensures { TreeMarked n in_tree.now work.old work.new result }
{
    fill_far(work, n);
    let mut count = 0;
    let mut v = next_marked(in_tree, 0, n);
    // No `for`: the next place is the next tree node, many nodes on.
    while v < n {
        work[v] = 0;
        heap::put(work, n, count, v, 0);
        count += 1;
        v = next_marked(in_tree, v + 1, n);
    }
    count
}

// Listed nodes without a label are goals.
fn mark_goals(sinks: &[u16], work: &mut [u64], n: usize)
    requires { (n ≤ nodes_most) × (n ≤ length work.old) }
    ensures { GoalsMarked n sinks.now work.old work.new (length sinks.now) }
{
    for sink in sinks {
        let s = *sink as usize;
        if s < n && work[s] == labels::FAR {
            work[s] = labels::GOAL;
        }
    }
}

// At most the price of every goal. The first value is above every price.
fn least_price(tables: &Tables, prices: &Prices, sinks: &[u16], work: &[u64]) -> u64
    requires { Long tables.now prices.now × (length tables.now.kind.now ≤ length work.now) }
    ensures { let price = price_read tables.now prices.now in
        let list = sinks.now in
        LeastGoal (length tables.now.kind.now) price list work.now (length list) result }
{
    let n = tables.kind.len();
    let mut least = ANY_PRICE_MOST;
    for sink in sinks {
        let s = *sink as usize;
        if s < n && work[s] == labels::GOAL {
            least = least.min(labels::clamped_price(tables, prices, s));
        }
    }
    least
}

// The first listed node of this label.
// No Option: where it is asked some listed node has the label, so that none needs no case.
fn first_at(sinks: &[u16], work: &[u64], n: usize, d: u64) -> usize
    requires { (n ≤ nodes_most) × (n ≤ length work.now) }
    ensures { FirstAt n d sinks.now work.now result }
{
    for (place, sink) in sinks.iter().enumerate() {
        let s = *sink as usize;
        if s < n && work[s] == d {
            return place;
        }
    }
    sinks.len()
}

// How many nodes the path from the tree to the sink has.
fn path_length(in_tree: &[u8], work: &[u64], n: usize, sink: usize) -> usize
    requires { (sink < n) × Leads n (label_at work.now sink) in_tree.now work.now }
    ensures { result ≡ length (path_in n in_tree.now work.now sink) }
{
    let mut v = sink;
    let mut count = 1;
    // No `for`: it follows the predecessors to the tree; how many there are is the answer.
    while in_tree[v] != 1 {
        v = (work[n + v] % heap::UPPER) as usize;
        count += 1;
    }
    count
}

// Writes the path from the tree to the sink to the beginning of the work slice.
fn write_path(in_tree: &[u8], work: &mut [u64], n: usize, sink: usize, count: usize)
    requires sink_lt_n { (sink < n) × Leads n (label_at work.old sink) in_tree.now work.old }
    requires count_value { (count ≡ length (path_in n in_tree.now work.old sink)) × (count ≤ n) }
    ensures { let path = path_in n in_tree.now work.old sink in
        (take count work.new ≡ path) × SameBut 0 n work.old work.new }
{
    let mut v = sink as u64;
    for i in (1..count).rev() {
        work[i] = v;
        v = work[n + v as usize] % heap::UPPER;
    }
    work[0] = v;
}

// Leaves the path to the first listed node of this label at the beginning of the work slice.
pub fn read_path(sinks: &[u16], in_tree: &[u8], work: &mut [u64], n: usize, cost: u64) -> Joins
    requires { Found n in_tree.now sinks.now work.old cost }
    ensures { Read n in_tree.now sinks.now work.old cost result work.new }
{
    let place = first_at(sinks, work, n, cost);
    let sink = sinks[place] as usize;
    let count = path_length(in_tree, work, n, sink);
    write_path(in_tree, work, n, sink, count);
    fill::fill(work, count, 3 * n, 0);
    Joins {
        place: place as u32,
        cost,
        length: count as u32,
    }
}

// One turn: joins the nearest sink that is still to be joined, where every list has its length.
pub fn join(
    tables: &Tables,
    prices: &Prices,
    work: &mut [u64],
    in_tree: &[u8],
    sinks: &[u16],
) -> Option<Joins>
    requires { let b = block_in tables.now in
        Fitted b (congestion_in prices.now) in_tree.now sinks.now work.old }
    ensures { let b = block_in tables.now in
        let price = price_read tables.now prices.now in
        let made = turn b price in_tree.now sinks.now in
        path_reply_of (Ok result) work.new ≡ turn_reply (length tables.now.kind.now) work.old made }
{
    let n = tables.kind.len();
    let waits = mark_tree(in_tree, work, n);
    mark_goals(sinks, work, n);
    let last_step = least_price(tables, prices, sinks, work);
    let cost = labels::settle_all(tables, prices, true, work, waits, last_step);
    if cost == labels::FAR {
        fill::fill(work, 0, 3 * n, 0);
        return None;
    }
    Some(read_path(sinks, in_tree, work, n, cost))
}
