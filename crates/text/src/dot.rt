// The lines of a picture.
ghost use Rattle.std.specs.Prelude.{◌≡◌, ◌+◌, ◌≤◌, length};
ghost use Rattle.text.specs.Routes.{branch_of};
ghost use Rattle.text.specs.Dot.{dot_line};
ghost use Rattle.text.specs.WriteSteps.{Put, Filled};

use crate::decimal;

// Writes bytes from a place on.
pub fn put_bytes(buffer: &mut [u8], at: usize, bytes: &[u8]) -> usize
    requires { at + length bytes.now ≤ length buffer.old }
    ensures { Put at bytes.now buffer.old buffer.new result }
{
    buffer[at..at + bytes.len()].copy_from_slice(bytes);
    at + bytes.len()
}

// Counts bytes from a place on, and writes them if the buffer has room.
pub fn fill_bytes(bytes: &[u8], buffer: &mut [u8], at: u64) -> u64
    ensures { Filled at bytes.now buffer.old buffer.new result }
{
    let next = at.saturating_add(bytes.len() as u64);
    if next <= buffer.len() as u64 {
        put_bytes(buffer, at as usize, bytes);
    }
    next
}

// The bytes of a branch's line: three numbers' digits and 17 more.
fn dot_length(net: u64, from: u64, to: u64) -> usize
    ensures { result ≡ length (dot_line (branch_of net from to)) }
{
    decimal::digit_count(net) + decimal::digit_count(from) + decimal::digit_count(to) + 17
}

// Writes a branch's line.
fn put_dot(buffer: &mut [u8], at: usize, net: u64, from: u64, to: u64) -> usize
    requires { at + length (dot_line (branch_of net from to)) ≤ length buffer.old }
    ensures { Put at (dot_line (branch_of net from to)) buffer.old buffer.new result }
{
    let one = decimal::put_number(buffer, at, from);
    let two = put_bytes(buffer, one, b" -> ");
    let three = decimal::put_number(buffer, two, to);
    let four = put_bytes(buffer, three, b" [label=\"");
    let five = decimal::put_number(buffer, four, net);
    put_bytes(buffer, five, b"\"];\n")
}

// Counts a branch's line from a place on, and writes it if the buffer has room.
pub fn fill_dot(net: u32, from: u32, to: u32, buffer: &mut [u8], at: u64) -> u64
    ensures { Filled at (dot_line (branch_of net from to)) buffer.old buffer.new result }
{
    let next = at.saturating_add(dot_length(net as u64, from as u64, to as u64) as u64);
    if next <= buffer.len() as u64 {
        put_dot(buffer, at as usize, net as u64, from as u64, to as u64);
    }
    next
}
