// One line as bytes, for callers that print a text line by line.
ghost use Rattle.std.specs.Prelude.{◌≡◌, ◌+◌, ◌≤◌, length};
ghost use Rattle.text.specs.Lines.{print_fields, print_line};
ghost use Rattle.text.specs.Routes.{capped};
ghost use Rattle.text.specs.WriteSteps.{Put, Filled};
ghost use Rattle.text.specs.LineReplies.{place_reply_of, line_reply};

use crate::decimal;
use crate::decimal::LF;

// The bytes of a line with these fields, or 2^64 − 1 where that is less: the letter, a comma and a number each, and LF.
fn line_length(fields: &[u64]) -> u64
    ensures { result ≡ capped (length (print_line 0 fields.now)) }
{
    let mut bytes: u64 = 1;
    for field in fields {
        bytes = bytes.saturating_add(1 + decimal::digit_count(*field) as u64);
    }
    bytes.saturating_add(1)
}

// Writes the fields, each after a comma, then LF.
fn put_fields(fields: &[u64], buffer: &mut [u8], start: usize) -> usize
    requires { start + length (print_fields fields.now) ≤ length buffer.old }
    ensures { Put start (print_fields fields.now) buffer.old buffer.new result }
{
    let mut at = start;
    for field in fields {
        at = decimal::put_field(buffer, at, *field);
    }
    decimal::put_byte(buffer, at, LF)
}

// Writes a line with this letter and these fields.
pub fn put_line(letter: u8, fields: &[u64], buffer: &mut [u8], at: usize) -> usize
    requires { at + length (print_line letter fields.now) ≤ length buffer.old }
    ensures { Put at (print_line letter fields.now) buffer.old buffer.new result }
{
    let next = decimal::put_byte(buffer, at, letter);
    put_fields(fields, buffer, next)
}

// Counts a line from a place on, and writes it if the buffer has room.
pub fn fill_line(letter: u8, fields: &[u64], buffer: &mut [u8], at: u64) -> u64
    ensures { Filled at (print_line letter fields.now) buffer.old buffer.new result }
{
    let next = at.saturating_add(line_length(fields));
    if next <= buffer.len() as u64 {
        put_line(letter, fields, buffer, at as usize);
    }
    next
}

// Prints a line with this letter and these fields from a place of the buffer on, and gives the place after it.
// If the line does not fit there, nothing is written and the place stays.
pub fn print_line(letter: u8, fields: &[u64], buffer: &mut [u8], at: usize) -> usize
    ensures answers { place_reply_of result buffer.new ≡ line_reply letter fields.now at buffer.old }
{
    if buffer.len() < at || ((buffer.len() - at) as u64) < line_length(fields) {
        return at;
    }
    put_line(letter, fields, buffer, at)
}
