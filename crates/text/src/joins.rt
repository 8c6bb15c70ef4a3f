// Nets of one source: the marks of those that may have records, and the J lines of the others.
ghost use Rattle.std.specs.Prelude.{[], ◌∷◌, ◌≡◌, ℕ, ◌≤◌, length};
ghost use Rattle.job.specs.Tables.{nets_most};
ghost use Rattle.text.specs.Lines.{letter_j, print_line};
ghost use Rattle.text.specs.Routes.{net_writable, join_text, route_joins};
ghost use Rattle.text.specs.WriteSteps.{Filled, net_marked};

use crate::{decimal, printing};
use job::NETS_MOST;

// Which nets are the first of their source.
pub fn first_marks(source: &[u16]) -> [bool; NETS_MOST]
    requires { length source.now ≤ nets_most }
    ensures { (i : ℕ) → net_marked result i ≡ net_writable source.now i }
{
    let mut marks = [false; NETS_MOST];
    for net in 0..source.len() {
        marks[net] = job::first_of(source, net) == net;
    }
    marks
}

// A net's J line, which is counted, and written if the buffer has room. It takes 44 bytes at most: with so many it is not counted first.
fn fill_join(net: u64, first: u64, buffer: &mut [u8], at: u64) -> u64
    ensures { Filled at (print_line letter_j (net ∷ first ∷ [])) buffer.old buffer.new result }
{
    let room = (buffer.len() as u64).saturating_sub(at);
    if room < 44 {
        let bytes = decimal::digit_count(net) + decimal::digit_count(first) + 4;
        let next = at.saturating_add(bytes as u64);
        if (buffer.len() as u64) < next {
            return next;
        }
    }
    printing::put_line(b'J', &[net, first], buffer, at as usize) as u64
}

// The J lines, which are counted, and written if the buffer has room. Apart, as the steps are, for the sake of registers.
#[inline(never)]
pub fn fill_joins(source: &[u16], buffer: &mut [u8], start: u64) -> u64
    ensures { Filled start (join_text (route_joins source.now)) buffer.old buffer.new result }
{
    let mut next = start;
    for net in 0..source.len() {
        let first = job::first_of(source, net);
        if first != net {
            next = fill_join(net as u64, first as u64, buffer, next);
        }
    }
    next
}
