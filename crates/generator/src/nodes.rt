// The N lines: pins in the first and the last quarter, wires of drawn length between them.
ghost use Rattle.std.specs.Prelude.{◌+◌, ◌-◌, ◌≤◌, length};
ghost use Rattle.text.specs.Printed.{concat_from};
ghost use Rattle.text.specs.WriteSteps.{Put};
ghost use Rattle.generator.specs.Load.{load_kind};
ghost use Rattle.generator.specs.Steps.{node_line, wire_kind};

use crate::draws;

// Writes the lines of nodes that have one kind.
fn put_pins(kind: u32, from: u32, to: u32, buffer: &mut [u8], start: usize) -> usize
    requires { (from ≤ to) × (start + length (concat_from (node_line (λ v. kind)) from (to - from)) ≤ length buffer.old) }
    ensures { Put start (concat_from (node_line (λ v. kind)) from (to - from)) buffer.old buffer.new result }
{
    let mut at = start;
    for v in from..to {
        let fields = [v as u64, kind as u64, 1];
        at = text::print_line(b'N', &fields, buffer, at);
    }
    at
}

// Writes the lines of nodes whose kinds are drawn, from the state before these draws.
fn put_wires(first: u32, from: u32, to: u32, buffer: &mut [u8], start: usize) -> usize
    requires { (from ≤ to) × (start + length (concat_from (node_line (wire_kind first from)) from (to - from)) ≤ length buffer.old) }
    ensures { let lines = concat_from (node_line (wire_kind first from)) from (to - from) in
        Put start lines buffer.old buffer.new result }
{
    let mut at = start;
    let mut state = first;
    for v in from..to {
        state = draws::step(state);
        let kind = 4 + draws::drawn(state, 12);
        let fields = [v as u64, kind as u64, 1];
        at = text::print_line(b'N', &fields, buffer, at);
    }
    at
}

// Writes the lines of all nodes.
pub fn put_nodes(seed: u32, nodes: u32, buffer: &mut [u8], start: usize) -> usize
    requires { start + length (concat_from (node_line (load_kind seed nodes)) 0 nodes) ≤ length buffer.old }
    ensures { Put start (concat_from (node_line (load_kind seed nodes)) 0 nodes) buffer.old buffer.new result }
{
    let quarter = nodes / 4;
    let wires = put_pins(0, 0, quarter, buffer, start);
    let sinks = put_wires(seed, quarter, nodes - quarter, buffer, wires);
    put_pins(1, nodes - quarter, nodes, buffer, sinks)
}
