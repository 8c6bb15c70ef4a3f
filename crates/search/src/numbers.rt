// Tests of the lists that price a turn: row 13, and the refusals that search and cheapest path share.
ghost use Rattle.std.specs.Prelude.{◌≡◌, ℕ, ◌≤◌, leb, List, []};
ghost use Rattle.price.specs.Bounds.{others_most, nodes_most};
ghost use Rattle.search.specs.Turn.{weighed_congestion};
ghost use Rattle.search.specs.Turn.{congestion_in};
ghost use Rattle.search.specs.Replies.{bounded, history_bounded, node_sound, bad_node};
ghost use Rattle.search.specs.Replies.{too_many, bad_criticality, refusal_of, search_refusal};
ghost use Rattle.search.specs.AllBelow.{all_below};

use crate::{Prices, Refusal, TIMED_NODES_MOST, weighing};
use price::Weighting;

// Row 13's bound of others, as wide as their list.
const OTHERS_MOST: u16 = 511;

// The history, others and tree mark of node v are there and within their bounds.
#[tactic(auto, unfolding(crate::specs::Replies::node_sound))]
fn node_sound(prices: &Prices, in_tree: &[u8], v: usize) -> bool
    ensures { result ≡ node_sound (congestion_in prices.now) in_tree.now v }
{
    v < prices.history.len()
        && 1 <= prices.history[v]
        && prices.history[v] <= weighing::history_bound(prices.weighting)
        && v < prices.others.len()
        && prices.others[v] <= OTHERS_MOST
        && v < in_tree.len()
        && in_tree[v] <= 1
}

// The lowest node that is not sound, n where each is.
fn bad_node(n: usize, prices: &Prices, in_tree: &[u8]) -> usize
    ensures { result ≡ bad_node n (congestion_in prices.now) in_tree.now }
{
    for v in 0..n {
        if !node_sound(prices, in_tree, v) {
            return v;
        }
    }
    n
}

// Each node's history is there, from 1 to `most`. This loop and the next two go over one list each and never leave early: so they are
// compiled to vector code.
#[tactic(auto, using(crate::proofs::PassLaws::history_short, crate::proofs::PassLaws::history_next))]
fn histories_sound(n: usize, most: u32, history: &[u32]) -> bool
    ensures { result ≡ all_below n (history_bounded most history.now) }
{
    if history.len() < n {
        return false;
    }
    let mut fine = true;
    for v in 0..n {
        fine &= 1 <= history[v];
        fine &= history[v] <= most;
    }
    fine
}

// Each node's others is there and within its bound.
#[tactic(auto, using(crate::proofs::PassLaws::bounded_short, crate::proofs::PassLaws::bounded_next))]
fn others_sound(n: usize, others: &[u16]) -> bool
    ensures { result ≡ all_below n (bounded others_most others.now) }
{
    if others.len() < n {
        return false;
    }
    let mut fine = true;
    for v in 0..n {
        fine &= others[v] <= OTHERS_MOST;
    }
    fine
}

// Each node's tree mark is there and 0 or 1.
#[tactic(auto, using(crate::proofs::PassLaws::bounded_short, crate::proofs::PassLaws::bounded_next))]
fn marks_sound(n: usize, in_tree: &[u8]) -> bool
    ensures { result ≡ all_below n (bounded 1 in_tree.now) }
{
    if in_tree.len() < n {
        return false;
    }
    let mut fine = true;
    for v in 0..n {
        fine &= in_tree[v] <= 1;
    }
    fine
}

// Each node's history, others and tree mark is there and within its bounds.
#[tactic(auto, using(crate::proofs::PassLaws::lists_all))]
fn lists_sound(n: usize, prices: &Prices, in_tree: &[u8]) -> bool
    ensures { result ≡ leb n (bad_node n (congestion_in prices.now) in_tree.now) }
{
    histories_sound(n, weighing::history_bound(prices.weighting), prices.history)
        && others_sound(n, prices.others)
        && marks_sound(n, in_tree)
}

// A timed turn over too many nodes.
fn too_many(weighting: Weighting, n: usize) -> bool
    ensures { result ≡ too_many weighting n }
{
    weighting.timed && TIMED_NODES_MOST < n
}

// A timed turn for a sink whose criticality is beyond its bound.
fn bad_criticality(weighting: Weighting) -> bool
    ensures { result ≡ bad_criticality weighting }
{
    weighting.timed && price::CRITICALITY_MOST < weighting.criticality
}

// The first refusal that is due once the tables keep their rules.
#[tactic(auto, unfolding(crate::specs::Replies::refusal_of))]
pub fn first_refusal(
    n: usize,
    prices: &Prices,
    entries: usize,
    in_tree: &[u8],
) -> Result<(), Refusal>
    requires { n ≤ nodes_most }
    ensures { search_refusal result ≡ refusal_of 0 n (congestion_in prices.now) in_tree.now entries }
{
    if too_many(prices.weighting, n) {
        return Err(Refusal::TooLarge(n as u32));
    }
    if entries < 8 * n {
        return Err(Refusal::ShortWork((8 * n) as u64));
    }
    if !lists_sound(n, prices, in_tree) {
        return Err(Refusal::BadNumber(bad_node(n, prices, in_tree) as u32));
    }
    if price::FACTOR_MOST < prices.factor {
        return Err(Refusal::BadNumber(n as u32));
    }
    if bad_criticality(prices.weighting) {
        return Err(Refusal::BadNumber(n as u32 + 1));
    }
    Ok(())
}
