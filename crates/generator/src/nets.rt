// The S and T lines: each net draws a source and a sink.
ghost use Rattle.std.specs.Prelude.{◌+◌, ◌≤◌, length};
ghost use Rattle.text.specs.Printed.{concat_from};
ghost use Rattle.text.specs.WriteSteps.{Put};
ghost use Rattle.generator.specs.Steps.{pin_lines, net_lines};

use crate::draws;

// Writes a net's two lines.
fn put_net(net: u32, source: u32, sink: u32, buffer: &mut [u8], start: usize) -> usize
    requires { start + length (pin_lines net source sink) ≤ length buffer.old }
    ensures { Put start (pin_lines net source sink) buffer.old buffer.new result }
{
    let from = [net as u64, source as u64];
    let at = text::print_line(b'S', &from, buffer, start);
    let to = [net as u64, sink as u64];
    text::print_line(b'T', &to, buffer, at)
}

// Writes the lines of all nets, from the state before their draws.
pub fn put_nets(first: u32, nodes: u32, nets: u32, buffer: &mut [u8], start: usize) -> usize
    requires { (4 ≤ nodes) × (start + length (concat_from (net_lines first nodes) 0 nets) ≤ length buffer.old) }
    ensures { Put start (concat_from (net_lines first nodes) 0 nets) buffer.old buffer.new result }
{
    let quarter = nodes / 4;
    let mut at = start;
    let mut state = first;
    for i in 0..nets {
        let one = draws::step(state);
        state = draws::step(one);
        let source = draws::drawn(one, quarter);
        let sink = nodes - quarter + draws::drawn(state, quarter);
        at = put_net(i, source, sink, buffer, at);
    }
    at
}
