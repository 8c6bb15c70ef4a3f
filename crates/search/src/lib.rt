// The search: tests of tables 1 to 4 and 9, distances from a tree, and the cheapest path of one turn.
#![tactic(auto)]

ghost use Rattle.std.specs.Prelude.{List, [], ◌≡◌, ℕ, length};
ghost use Rattle.price.specs.Test.{both};
ghost use Rattle.search.specs.Block.{nodes};
ghost use Rattle.search.specs.Block.{block_in, back_in};
ghost use Rattle.search.specs.Turn.{congestion_in};
ghost use Rattle.search.specs.Replies.{tested};
ghost use Rattle.search.specs.Turn.{Congestion, weighed_congestion, congestion_of, timed_congestion, price_at};
ghost use Rattle.search.specs.Replies.{search_reply_of, search_reply, timed_search_reply, LeavesLeastCosts};
ghost use Rattle.search.specs.Replies.{refusal_of, search_refusal, faulty_delays, faulty_with_delays, faulty_with_sinks, path_due};
ghost use Rattle.search.specs.Replies.{timed_fitting, fitting_lengths};
ghost use Rattle.search.specs.Replies.{path_reply_of, path_reply, JoinsCheapest};
ghost use Rattle.search.specs.ByTarget.{ListsBack};
ghost use Rattle.search.specs.AimedReplies.{joins_of, aimed_path_reply_of, aimed_path_reply};

// Tables 1 to 4, the block: its nodes' kinds and capacities, where each node's row of edges begins, and the edges' targets.
#[derive(Clone, Copy)]
pub struct Tables<'a> {
    pub kind: &'a [u8],
    pub capacity: &'a [u8],
    pub first_edge: &'a [u32],
    pub edge_target: &'a [u16],
}

// The same edges by their target: where each node's row begins, and the edges' sources.
#[derive(Clone, Copy)]
pub struct Back<'a> {
    pub first_back: &'a [u32],
    pub back_source: &'a [u16],
}

// What prices a turn beside the block: how delay is weighed and each node's delay, the factor, and of each node its history and how many
// other nets have it.
#[derive(Clone, Copy)]
pub struct Prices<'a> {
    pub weighting: Weighting,
    pub delay: &'a [u16],
    pub factor: u32,
    pub history: &'a [u32],
    pub others: &'a [u16],
}

// 5: this table breaks its rule.
#[derive(Clone, Copy, Debug, PartialEq, Eq)]
pub struct BadTable {
    pub table: u32,
}

// Why a call of the search or of the cheapest path is refused.
#[derive(Clone, Copy, Debug, PartialEq, Eq)]
pub enum Refusal {
    // 5: this table breaks its rule.
    BadTable(u32),
    // 6: the work slice is shorter than this many entries.
    ShortWork(u64),
    // 13: at this place a number is beyond its bounds.
    BadNumber(u32),
    // 15: a timed search takes fewer nodes than these.
    TooLarge(u32),
}

impl From<BadTable> for Refusal {
    ghost use Rattle.search.specs.declared.Refusal.TheVariants as r;

    ghost from_gives = { λ bad refusal. refusal ≡ r.BadTable bad.table };

    fn from(bad: BadTable) -> Refusal {
        Refusal::BadTable(bad.table)
    }
}

// The sink at this place of the list is joined at this cost, by a path of this many nodes at the beginning of the work slice.
#[derive(Clone, Copy, Debug, PartialEq, Eq)]
pub struct Joins {
    pub place: u32,
    pub cost: u64,
    pub length: u32,
}

// A turn by the search that aims: the same, and how many nodes it expanded.
#[derive(Clone, Copy, Debug, PartialEq, Eq)]
pub struct AimedTurn {
    pub joins: Option<Joins>,
    pub expanded: u32,
}

// The most nodes of a block, places of its rows and edges.
pub const NODES_MOST: usize = 4096;

pub const FIRST_EDGES_MOST: usize = 4097;

pub const EDGES_MOST: usize = 32768;

// The most sinks of all nets.
pub const SINKS_MOST: usize = 4096;

// The most nodes of a timed job.
pub const TIMED_NODES_MOST: usize = 1024;

mod aim;
mod aimed_turn;
mod buckets;
mod distances;
mod estimate;
mod fill;
mod heap;
mod labels;
mod numbers;
mod queue;
mod table_tests;
mod turn;
mod weighing;

use price::Weighting;

// A timed turn's delays keep their rule, or table 9 is refused.
fn faulty_delays(weighting: Weighting, n: usize, delay: &[u16]) -> Result<(), BadTable>
    ensures { result ≡ tested (faulty_delays weighting n delay.now) }
{
    if weighting.timed && !table_tests::delays_sound(n, delay) {
        return Err(BadTable { table: 9 });
    }
    Ok(())
}

// Tables 1 to 4 and in a timed turn the delays keep their rules, or the lowest table that doesn't is refused.
#[tactic(auto, unfolding(crate::specs::Replies::faulty_with_delays))]
fn faulty_with_delays(tables: &Tables, weighting: Weighting, delay: &[u16]) -> Result<(), BadTable>
    ensures { let turn : (ℕ → List ℕ → List ℕ → Congestion) = weighed_congestion weighting delay.now in
        ((factor : ℕ) (histories others : List ℕ)
        → result ≡ tested (faulty_with_delays (block_in tables.now) (turn factor histories others))) }
{
    table_tests::faulty_table(tables)?;
    faulty_delays(weighting, tables.kind.len(), delay)
}

// The search of both kinds: the tests of the tables, then the node count of a timed turn, the work slice and the numbers that price a turn;
// where none fails the distances of all nodes from the marked ones stand at the beginning of the work slice.
fn searched(
    tables: &Tables,
    prices: &Prices,
    work: &mut [u64],
    in_tree: &[u8],
) -> Result<(), Refusal>
    ensures answers { let b = block_in tables.now in
        search_reply_of result work.new ≡ timed_search_reply b (congestion_in prices.now) in_tree.now work.old }
    ensures distances { let b = block_in tables.now in
        LeavesLeastCosts b (price_at b (congestion_in prices.now)) in_tree.now result work.new }
{
    faulty_with_delays(tables, prices.weighting, prices.delay)?;
    numbers::first_refusal(tables.kind.len(), prices, work.len(), in_tree)?;
    distances::distances_from_tree(tables, prices, work, in_tree);
    Ok(())
}

// The tests of tables 1 to 4, then the work slice, then the numbers that price a turn; where none fails the distances of all nodes
// from the marked ones stand at the beginning of the work slice.
pub fn search(
    tables: &Tables,
    factor: u32,
    work: &mut [u64],
    history: &[u32],
    others: &[u16],
    in_tree: &[u8],
) -> Result<(), Refusal>
    ensures answers { let congestion = congestion_of factor history.now others.now in
        search_reply_of result work.new ≡ search_reply (block_in tables.now) congestion in_tree.now work.old }
    ensures distances { let b = block_in tables.now in
        let congestion = congestion_of factor history.now others.now in
        LeavesLeastCosts b (price_at b congestion) in_tree.now result work.new }
{
    let prices = Prices {
        weighting: Weighting {
            timed: false,
            criticality: 0,
        },
        delay: &[],
        factor,
        history,
        others,
    };
    searched(tables, &prices, work, in_tree)
}

// The same in a timed job: table 9 is tested with tables 1 to 4, and the prices are those for a sink of this criticality.
// Its parameters after the tables are those of the call for C, in its order.
pub fn timed_search(
    tables: &Tables,
    delay: &[u16],
    factor: u32,
    criticality: u32,
    work: &mut [u64],
    history: &[u32],
    others: &[u16],
    in_tree: &[u8],
) -> Result<(), Refusal>
    ensures answers { let congestion = timed_congestion criticality delay.now factor history.now others.now in
        search_reply_of result work.new ≡ timed_search_reply (block_in tables.now) congestion in_tree.now work.old }
    ensures distances { let b = block_in tables.now in
        let congestion = timed_congestion criticality delay.now factor history.now others.now in
        LeavesLeastCosts b (price_at b congestion) in_tree.now result work.new }
{
    let prices = Prices {
        weighting: Weighting {
            timed: true,
            criticality,
        },
        delay,
        factor,
        history,
        others,
    };
    searched(tables, &prices, work, in_tree)
}

// Tables 1 to 4, the list of sinks and in a timed turn the delays keep their rules, or the lowest of tables 1 to 4 that doesn't is refused,
// else 7 for the sinks, else 9 for the delays.
#[tactic(auto, unfolding(crate::specs::Replies::faulty_with_sinks, crate::specs::Replies::faulty_with_delays))]
fn faulty_with_sinks(
    tables: &Tables,
    weighting: Weighting,
    delay: &[u16],
    sinks: &[u16],
) -> Result<(), BadTable>
    ensures { let turn : (ℕ → List ℕ → List ℕ → Congestion) = weighed_congestion weighting delay.now in
        let listed = sinks.now in
        ((factor : ℕ) (histories others : List ℕ)
        → result ≡ tested (faulty_with_sinks (block_in tables.now) (turn factor histories others) listed)) }
{
    table_tests::faulty_table(tables)?;
    if !table_tests::sink_list_sound(tables.kind.len(), sinks) {
        return Err(BadTable { table: 7 });
    }
    faulty_delays(weighting, tables.kind.len(), delay)
}

// What is refused where a length is wrong.
fn refused(
    tables: &Tables,
    prices: &Prices,
    entries: usize,
    in_tree: &[u8],
    sinks: &[u16],
) -> Result<(), Refusal>
    ensures { let b = block_in tables.now in
        let congestion = congestion_in prices.now in
        let table = faulty_with_sinks b congestion sinks.now in
        search_refusal result ≡ refusal_of table (nodes b) congestion in_tree.now entries }
{
    faulty_with_sinks(tables, prices.weighting, prices.delay, sinks)?;
    numbers::first_refusal(tables.kind.len(), prices, entries, in_tree)
}

// Every list has the length that its rule asks; in a timed turn there are few enough nodes, and a delay for each.
#[tactic(auto, unfolding(crate::specs::Replies::fitting_lengths))]
fn fits(tables: &Tables, prices: &Prices, entries: usize, in_tree: &[u8], sinks: &[u16]) -> bool
    ensures { let b = block_in tables.now in
        let c = congestion_in prices.now in
        let marks = length in_tree.now in
        let fit = fitting_lengths (nodes b) (length b.capacities) (length b.first_edges) (length b.edge_targets) entries
        (length c.histories) (length c.others) marks (length sinks.now) in
        result ≡ both fit (timed_fitting c.weighting.timed (nodes b) (length c.delays)) }
{
    let n = tables.kind.len();
    1 <= n
        && n <= NODES_MOST
        && tables.capacity.len() == n
        && tables.first_edge.len() == n + 1
        && tables.edge_target.len() <= EDGES_MOST
        && 8 * n <= entries
        && n <= prices.history.len()
        && n <= prices.others.len()
        && n <= in_tree.len()
        && sinks.len() <= SINKS_MOST
        && (!prices.weighting.timed || (n <= TIMED_NODES_MOST && n <= prices.delay.len()))
}

// One turn: the cheapest path from the marked nodes to the nearest unmarked sink, none where no unmarked sink has one. Only lengths are
// compared: every number is read within its bounds, so that the call costs what it visits. Where a length is wrong the tests of the search
// and of the sinks say what is refused.
pub fn cheapest_path(
    tables: &Tables,
    prices: &Prices,
    work: &mut [u64],
    in_tree: &[u8],
    sinks: &[u16],
) -> Result<Option<Joins>, Refusal>
    ensures answers { let reply = path_reply (block_in tables.now) (congestion_in prices.now) in_tree.now sinks.now work.old in
        path_reply_of result work.new ≡ reply }
    ensures cheapest { let b = block_in tables.now in
        let congestion = congestion_in prices.now in
        let due = path_due b congestion in_tree.now sinks.now work.old in
        (due ≡ [] → JoinsCheapest b (price_at b congestion) in_tree.now sinks.now result work.new) }
{
    if fits(tables, prices, work.len(), in_tree, sinks) {
        return Ok(turn::join(tables, prices, work, in_tree, sinks));
    }
    refused(tables, prices, work.len(), in_tree, sinks)?;
    Ok(None)
}

// One turn by the search that aims: the same path as the cheapest path's, found by expanding fewer nodes, and how many these are. The
// edges are lent twice, by their source in tables 3 and 4 and by their target in the same form: an edge counts where both have it, and
// estimates go by the second alone. As for the cheapest path only lengths are compared and every number is read within its bounds. Where a
// length is wrong the tests of the search and of the sinks say what is refused; a wrong one of the second table 3 counts as table 3's.
pub fn aimed_path(
    tables: &Tables,
    back: &Back,
    prices: &Prices,
    work: &mut [u64],
    in_tree: &[u8],
    sinks: &[u16],
) -> Result<AimedTurn, Refusal>
    ensures answers { let b = block_in tables.now in
        let r = back_in tables.now.kind.now back.now in
        let reply = aimed_path_reply b r (congestion_in prices.now) in_tree.now sinks.now work.old in
        aimed_path_reply_of result work.new ≡ reply }
    ensures cheapest { let b = block_in tables.now in
        let r = back_in tables.now.kind.now back.now in
        let congestion = congestion_in prices.now in
        let marks = in_tree.now in
        let due = path_due b congestion marks sinks.now work.old in
        let joins = joins_of result in
        (due ≡ [] → ListsBack b r → JoinsCheapest b (price_at b congestion) marks sinks.now joins work.new) }
{
    if !fits(tables, prices, work.len(), in_tree, sinks) {
        refused(tables, prices, work.len(), in_tree, sinks)?;
        return Ok(AimedTurn {
            joins: None,
            expanded: 0,
        });
    }
    if back.first_back.len() != tables.kind.len() + 1 {
        return Err(Refusal::BadTable(3));
    }
    Ok(aimed_turn::join(tables, back, prices, work, in_tree, sinks))
}
