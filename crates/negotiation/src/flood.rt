// Which sinks have a path from a source: a flood over the edges, each node once, until every sink is reached.
ghost use Rattle.std.specs.Prelude.{◌+◌, ◌≤◌, length};
ghost use Rattle.search.specs.Block.{row_start};
ghost use Rattle.search.specs.Block.{graph_in};
ghost use Rattle.job.specs.Steps.{AllBelow};
ghost use Rattle.negotiation.specs.Flood.{FloodReady, FloodRoom, RowFlooded, Flooded, FirstUnmarked};

use search::Tables;

// Marks the targets of node u that are not marked yet. Each waits in the queue, which is the work slice up to `end`; the answer is its new
// end. Every target is written behind the queue, which then grows by 1 or 0: whether a target is new no processor foresees, and a sum needs
// no branch.
fn flood_row(tables: &Tables, u: usize, end: usize, reached: &mut [u8], work: &mut [u64]) -> usize
    requires { FloodRoom (graph_in tables.now) u end reached.old work.old }
    ensures { let graph = graph_in tables.now in
        let to = row_start graph (u + 1) in
        RowFlooded graph u to end result reached.old reached.new work.old work.new }
{
    let from = tables.first_edge[u] as usize;
    let to = tables.first_edge[u + 1] as usize;
    let mut last = end;
    for e in from..to {
        let v = tables.edge_target[e] as usize;
        if last < tables.kind.len() {
            work[last] = v as u64;
        }
        let new = if reached[v] == 0 { 1 } else { 0 };
        reached[v] = 1;
        last += new;
    }
    last
}

// The first place from `from` on whose sink is not marked, or how many sinks there are.
// No Option: the count stands for none, as the next look begins at the place.
pub fn missing_sink(reached: &[u8], sinks: &[u16], from: usize) -> usize
    requires all_below { AllBelow (length reached.now) sinks.now }
    requires from_in_bounds { from ≤ length sinks.now }
    ensures { FirstUnmarked reached.now sinks.now from result }
{
    for place in from..sinks.len() {
        let s = sinks[place] as usize;
        if reached[s] == 0 {
            return place;
        }
    }
    sinks.len()
}

// Marks nodes that have a path from the source, and no other, until every sink is marked or there is no other such node. The work slice
// holds the queue.
pub fn flood(tables: &Tables, source: usize, sinks: &[u16], reached: &mut [u8], work: &mut [u64])
    requires { let graph = graph_in tables.now in
        FloodReady graph source sinks.now reached.old work.old }
    ensures { let graph = graph_in tables.now in
        Flooded graph source sinks.now reached.new work.old work.new }
{
    reached.fill(0);
    reached[source] = 1;
    work[0] = source as u64;
    let mut missing = 0;
    let mut next = 0;
    let mut end = 1;
    // No `for`: the queue grows while it is read.
    while next < end {
        missing = missing_sink(reached, sinks, missing);
        if missing == sinks.len() {
            return;
        }
        let u = work[next] as usize;
        end = flood_row(tables, u, end, reached, work);
        next += 1;
    }
}
