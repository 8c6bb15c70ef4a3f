// Tests of tables 1 to 4 and 9, and of a list of sinks.
// A loop over a table's entries goes to their end and keeps `fine`: without an early exit it becomes vector code.
ghost use Rattle.std.specs.Prelude.{◌≡◌, true, ◌≤◌, leb, length};
ghost use Rattle.std.proofs.Math.Seq.{slice};
ghost use Rattle.price.specs.Bounds.{nodes_most};
ghost use Rattle.price.specs.Lists.{neighbours};
ghost use Rattle.search.specs.Block.{block_in};
ghost use Rattle.search.specs.Replies.{tested};
ghost use Rattle.search.specs.Tables.{kinds_sound, capacities_sound, first_edges_sound, edge_targets_sound, row_sound, faulty_table};
ghost use Rattle.search.specs.Tables.{delays_sound};
ghost use Rattle.search.specs.Replies.{sink_list_sound};

use crate::{BadTable, EDGES_MOST, NODES_MOST, SINKS_MOST, Tables};

// The largest kind, and the largest delay.
const KIND_MOST: u8 = 53;

const DELAY_MOST: u16 = 1000;

// Table 1: "kind, a byte a node: 1 to 4,096 nodes", by request 2.2 of kinds 0 to 53.
#[tactic(auto, unfolding(crate::specs::Tables::kinds_sound))]
fn kinds_sound(kind: &[u8]) -> bool
    ensures { result ≡ kinds_sound kind.now }
{
    if kind.is_empty() || NODES_MOST < kind.len() {
        return false;
    }
    let mut fine = true;
    for k in kind {
        fine &= *k <= KIND_MOST;
    }
    fine
}

// Table 2: "capacity, a byte a node, 1 to 255."
#[tactic(auto, unfolding(crate::specs::Tables::capacities_sound))]
fn capacities_sound(n: usize, capacity: &[u8]) -> bool
    ensures { result ≡ capacities_sound n capacity.now }
{
    if capacity.len() != n {
        return false;
    }
    let mut fine = true;
    for c in capacity {
        fine &= 1 <= *c;
    }
    fine
}

// Table 3 never falls.
fn never_falls(first_edge: &[u32]) -> bool
    ensures { result ≡ neighbours leb first_edge.now }
{
    let mut fine = true;
    for v in 1..first_edge.len() {
        fine &= first_edge[v - 1] <= first_edge[v];
    }
    fine
}

// Table 3: "nodes + 1 entries: begins with 0, never falls, ends with table 4's length."
#[tactic(auto, unfolding(crate::specs::Tables::first_edges_sound))]
fn first_edges_sound(n: usize, edges: usize, first_edge: &[u32]) -> bool
    requires { n ≤ nodes_most }
    ensures { result ≡ first_edges_sound n edges first_edge.now }
{
    first_edge.len() == n + 1
        && first_edge[0] == 0
        && never_falls(first_edge)
        && first_edge[n] as usize == edges
}

// The row of node u, which stands in table 4 from `from` to below `to`: each a node but u itself, strictly rising.
fn row_sound(n: usize, edge_target: &[u16], from: usize, to: usize, u: usize) -> bool
    requires { to ≤ length edge_target.now }
    ensures { result ≡ row_sound n u (slice from to edge_target.now) }
{
    let mut fine = true;
    // The least target that may come next.
    let mut low = 0;
    for e in from..to {
        let v = edge_target[e] as usize;
        fine &= low <= v;
        fine &= v != u;
        low = v + 1;
    }
    // They rise, so only the last has to be below n.
    fine && low <= n
}

// Table 4, once table 3 keeps its rule.
#[tactic(auto, unfolding(crate::specs::Tables::edge_targets_sound))]
fn edge_targets_sound(tables: &Tables) -> bool
    requires { let t = tables.now in
        first_edges_sound (length t.kind.now) (length t.edge_target.now) t.first_edge.now ≡ true }
    ensures { result ≡ edge_targets_sound (block_in tables.now) }
{
    let n = tables.kind.len();
    if EDGES_MOST < tables.edge_target.len() {
        return false;
    }
    for u in 0..n {
        let from = tables.first_edge[u] as usize;
        let to = tables.first_edge[u + 1] as usize;
        if !row_sound(n, tables.edge_target, from, to, u) {
            return false;
        }
    }
    true
}

// Tables 1 to 4 keep their rules, or the lowest that doesn't is refused.
#[tactic(auto, unfolding(crate::specs::Tables::faulty_table))]
pub fn faulty_table(tables: &Tables) -> Result<(), BadTable>
    ensures { result ≡ tested (faulty_table (block_in tables.now)) }
{
    let n = tables.kind.len();
    if !kinds_sound(tables.kind) {
        return Err(BadTable { table: 1 });
    }
    if !capacities_sound(n, tables.capacity) {
        return Err(BadTable { table: 2 });
    }
    if !first_edges_sound(n, tables.edge_target.len(), tables.first_edge) {
        return Err(BadTable { table: 3 });
    }
    if !edge_targets_sound(tables) {
        return Err(BadTable { table: 4 });
    }
    Ok(())
}

// Table 9.
#[tactic(auto, unfolding(crate::specs::Tables::delays_sound))]
pub fn delays_sound(n: usize, delay: &[u16]) -> bool
    ensures { result ≡ delays_sound n delay.now }
{
    if delay.len() != n {
        return false;
    }
    let mut fine = true;
    for d in delay {
        fine &= *d <= DELAY_MOST;
    }
    fine
}

// A list of sinks is short enough, and each is a node.
#[tactic(auto, unfolding(crate::specs::Replies::sink_list_sound))]
pub fn sink_list_sound(n: usize, sinks: &[u16]) -> bool
    ensures { result ≡ sink_list_sound n sinks.now }
{
    sinks.len() <= SINKS_MOST && sinks.iter().all(|s| (*s as usize) < n)
}
