// The E lines.
ghost use Rattle.std.specs.Prelude.{[], ◌≡◌, ◌+◌, ◌≤◌, length, take, drop};
ghost use Rattle.search.specs.Tables.{edges_most};
ghost use Rattle.price.specs.Bounds.{nodes_most};
ghost use Rattle.text.specs.JobText.{edge_line, edge_lists, edge_lines, rises};
ghost use Rattle.text.specs.Steps.{Within, edge_at, EdgePlace, edges_at, edge_tables, LinesPlace};

use crate::fields;
use crate::fields::LineFields;
use crate::place::{LineFault, LineRefusal, Place};

// The two nodes of an E line and the place after it.
#[derive(Clone, Copy)]
pub struct Edge {
    pub from: u16,
    pub to: u16,
    pub next: usize,
}

// The edge comes after the last one, if there is one.
fn edge_rises(count: usize, last_from: usize, last_to: usize, from: usize, to: usize) -> bool
    ensures { result ≡ rises count last_from last_to from to }
{
    count == 0 || last_from < from || (last_from == from && last_to < to)
}

// The line after this many edges, of which this is the last.
fn edge_line(
    text: &[u8],
    at: usize,
    nodes: usize,
    count: usize,
    last_from: usize,
    last_to: usize,
) -> Result<Edge, LineFault>
    requires { nodes ≤ nodes_most }
    ensures value { edge_at text.now result ≡ edge_line nodes count last_from last_to (drop at text.now) }
    ensures edge_place { EdgePlace nodes at text.now result }
{
    let Some(
        LineFields {
            first,
            second,
            next,
            ..
        },
    ) = fields::line_fields(text, at, b'E', 2)
    else {
        return Err(LineFault::Malformed);
    };
    if nodes <= first as usize || nodes <= second as usize {
        return Err(LineFault::BeyondBounds);
    }
    if first == second || !edge_rises(count, last_from, last_to, first as usize, second as usize) {
        return Err(LineFault::WrongOrder);
    }
    Ok(Edge {
        from: first as u16,
        to: second as u16,
        next,
    })
}

// Reads the lines of all edges into tables 3 and 4.
pub fn read_edges(
    text: &[u8],
    from: Place,
    nodes: usize,
    edges: usize,
    first_edge: &mut [u32],
    edge_target: &mut [u16],
) -> Result<Place, LineRefusal>
    requires from_in_bounds { Within text.now from × (nodes ≤ nodes_most) × (edges ≤ edges_most) }
    requires nodes_in_bounds { (nodes + 1 ≤ length first_edge.old) × (edges ≤ length edge_target.old) }
    ensures edge_target_after { let lines = edge_lines nodes edges (edge_lists [] []) from.line (drop from.at text.now) in
        edges_at text.now result (take (nodes + 1) first_edge.new) (take edges edge_target.new)
        ≡ edge_tables nodes lines }
    ensures lines_place { LinesPlace text.now result }
{
    let mut at = from.at;
    let mut line = from.line;
    let mut row = 0;
    let mut target = 0;
    first_edge[0] = 0;
    for k in 0..edges {
        let edge = match edge_line(text, at, nodes, k, row, target) {
            Ok(edge) => edge,
            Err(fault) => return Err(LineRefusal { fault, line }),
        };
        first_edge[row + 1..edge.from as usize + 1].fill(k as u32);
        edge_target[k] = edge.to;
        row = edge.from as usize;
        target = edge.to as usize;
        at = edge.next;
        line += 1;
    }
    first_edge[row + 1..nodes + 1].fill(edges as u32);
    Ok(Place { at, line })
}
