// What differs between the two texts of a log: a branch's line, and what stands before and after the branches. Each is counted, and
// written if the buffer has room.
ghost use Rattle.text.specs.Routes.{branch_of};
ghost use Rattle.text.specs.Dot.{style_line};
ghost use Rattle.text.specs.WriteSteps.{Filled, head_text, tail_text};

use crate::log_check::SoundLog;
use crate::{Style, dot, joins, printing};

// A branch's line.
pub fn fill_branch(style: Style, net: u32, from: u32, to: u32, buffer: &mut [u8], at: u64) -> u64
    ensures { Filled at (style_line style (branch_of net from to)) buffer.old buffer.new result }
{
    match style {
        Style::Lines => {
            printing::fill_line(b'B', &[net as u64, from as u64, to as u64], buffer, at)
        }
        Style::Picture => dot::fill_dot(net, from, to, buffer, at),
    }
}

// What stands before the branches.
pub fn fill_head(style: Style, found: SoundLog, buffer: &mut [u8]) -> u64
    ensures { Filled 0 (head_text style found.iteration found.turns) buffer.old buffer.new result }
{
    match style {
        Style::Lines => {
            printing::fill_line(
                b'R',
                &[found.iteration as u64, found.turns as u64],
                buffer,
                0,
            )
        }
        Style::Picture => dot::fill_bytes(b"digraph r {\n", buffer, 0),
    }
}

// And after them.
pub fn fill_tail(style: Style, source: &[u16], buffer: &mut [u8], at: u64) -> u64
    ensures { Filled at (tail_text style source.now) buffer.old buffer.new result }
{
    match style {
        Style::Lines => joins::fill_joins(source, buffer, at),
        Style::Picture => dot::fill_bytes(b"}\n", buffer, at),
    }
}
