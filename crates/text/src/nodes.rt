// The N lines.
ghost use Rattle.std.specs.Prelude.{[], ◌≡◌, ◌≤◌, length, take, drop};
ghost use Rattle.price.specs.Bounds.{nodes_most};
ghost use Rattle.text.specs.JobText.{node_line, taking, node_lists, node_lines};
ghost use Rattle.text.specs.Steps.{Within, four_of, node_at, NodePlace, nodes_at, LinesPlace};

use crate::fields::LineFields;
use crate::place::{LineFault, LineRefusal, Place};
use crate::{bounds, fields};

// The numbers of an N line and the place after it. In an untimed job the delay is 0.
#[derive(Clone, Copy)]
pub struct Node {
    pub kind: u8,
    pub capacity: u8,
    pub delay: u16,
    pub next: usize,
}

// The line of node v, of this many nodes. An untimed one has no delay, which counts as 0.
fn node_line(text: &[u8], at: usize, nodes: usize, v: usize, timed: bool) -> Result<Node, LineFault>
    requires { nodes ≤ nodes_most }
    ensures value { let read = node_line timed nodes v (drop at text.now) in
        node_at v text.now result ≡ taking four_of read }
    ensures node_place { NodePlace at text.now result }
{
    let count = fields::one_of_two(timed, 4, 3) as usize;
    let Some(
        LineFields {
            first,
            second,
            third,
            fourth,
            next,
        },
    ) = fields::line_fields(text, at, b'N', count)
    else {
        return Err(LineFault::Malformed);
    };
    let delay = fields::one_of_two(timed, fourth, 0);
    if nodes <= first as usize
        || bounds::KIND_MOST < second
        || third < 1
        || bounds::CAPACITY_MOST < third
        || bounds::DELAY_MOST < delay
    {
        return Err(LineFault::BeyondBounds);
    }
    if first as usize != v {
        return Err(LineFault::WrongOrder);
    }
    Ok(Node {
        kind: second as u8,
        capacity: third as u8,
        delay: delay as u16,
        next,
    })
}

// Reads the lines of all nodes into tables 1, 2 and 9.
pub fn read_nodes(
    text: &[u8],
    from: Place,
    nodes: usize,
    timed: bool,
    kind: &mut [u8],
    capacity: &mut [u8],
    delay: &mut [u16],
) -> Result<Place, LineRefusal>
    requires from_in_bounds { Within text.now from × (nodes ≤ nodes_most) }
    requires nodes_in_bounds { (nodes ≤ length kind.old) × (nodes ≤ length capacity.old) × (nodes ≤ length delay.old) }
    ensures delay_after { let lines = node_lines timed nodes nodes (node_lists [] [] []) from.line (drop from.at text.now) in
        nodes_at text.now result
        (take nodes kind.new) (take nodes capacity.new) (take nodes delay.new) ≡ lines }
    ensures lines_place { LinesPlace text.now result }
{
    let mut at = from.at;
    let mut line = from.line;
    for v in 0..nodes {
        let node = match node_line(text, at, nodes, v, timed) {
            Ok(node) => node,
            Err(fault) => return Err(LineRefusal { fault, line }),
        };
        kind[v] = node.kind;
        capacity[v] = node.capacity;
        delay[v] = node.delay;
        at = node.next;
        line += 1;
    }
    Ok(Place { at, line })
}
