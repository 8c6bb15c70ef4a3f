// Fields of a line: each reading gives a number with the next place, or a fault.
ghost use Rattle.std.specs.Prelude.{◌≡◌, ◌+◌, ◌≤◌, ◌<◌, length, drop};
ghost use Rattle.text.specs.Decimal.{is_digit};
ghost use Rattle.text.specs.Lines.{digits_after, field, fields, line, begins};
ghost use Rattle.price.specs.Test.{choose};
ghost use Rattle.text.specs.Steps.{comma_field, field_at, FieldPlace, fields_at, FieldsPlace};

use crate::decimal::LF;

// "Each field reading gives a number with the next place, or a fault.": a fault is None.
#[derive(Clone, Copy)]
pub struct Field {
    pub value: u32,
    pub next: usize,
}

// The values of a line's fields, 0 past their count, and the place after its LF.
#[derive(Clone, Copy)]
pub struct LineFields {
    pub first: u32,
    pub second: u32,
    pub third: u32,
    pub fourth: u32,
    pub next: usize,
}

// The job text along with how far the reader has come.
#[derive(Clone, Copy)]
pub struct JobReader<'a> {
    pub text: &'a [u8],
    pub at: usize,
}

// The byte at this place is this one.
pub fn byte_is(text: &[u8], at: usize, byte: u8) -> bool
    ensures { result ≡ begins byte (drop at text.now) }
{
    at < text.len() && text[at] == byte
}

fn is_digit(b: u8) -> bool
    ensures { result ≡ is_digit b }
{
    b.is_ascii_digit()
}

// A number that begins with this digit continues with at most five more.
fn further_digits(text: &[u8], at: usize, first: u32) -> Field
    requires { (at ≤ length text.now) × (first < 10) }
    ensures value { field_at text.now (Some result) ≡ digits_after 5 first (drop at text.now) }
    ensures field_place { FieldPlace at text.now (Some result) }
{
    let mut value = first;
    let mut next = at;
    let mut left: u32 = 5;
    // No `for`: the first byte that is no digit ends it, and the place of that byte is part of the answer.
    while 0 < left && next < text.len() && is_digit(text[next]) {
        value = value * 10 + (text[next] - b'0') as u32;
        next += 1;
        left -= 1;
    }
    Field { value, next }
}

// A number of 1 to 6 digits without a leading zero.
fn number(text: &[u8], at: usize) -> Option<Field>
    ensures value { field_at text.now result ≡ field (drop at text.now) }
    ensures field_place { FieldPlace at text.now result }
{
    if text.len() <= at {
        return None;
    }
    let b = text[at];
    if b == b'0' {
        return Some(Field {
            value: 0,
            next: at + 1,
        });
    }
    if !is_digit(b) {
        return None;
    }
    Some(further_digits(text, at + 1, (b - b'0') as u32))
}

// A field after a comma.
fn comma_field(text: &[u8], at: usize) -> Option<Field>
    ensures value { field_at text.now result ≡ comma_field (drop at text.now) }
    ensures field_place { FieldPlace at text.now result }
{
    if !byte_is(text, at, b',') {
        return None;
    }
    number(text, at + 1)
}

// This number or the other.
pub fn one_of_two(first: bool, one: u32, other: u32) -> u32
    ensures { result ≡ choose first one other }
{
    if first { one } else { other }
}

// The fields of the line that the reader has come to: it moves from field to field, and stops at a fault.
fn read_fields(r: JobReader, count: usize) -> Option<LineFields>
    requires { count ≤ 4 }
    ensures value { fields_at count r.entry.text.now result ≡ fields count (drop r.entry.at r.entry.text.now) }
    ensures fields_place { FieldsPlace r.entry.at r.entry.text.now result }
{
    let mut reader = r;
    let mut values = [0u32; 4];
    for k in 0..count {
        let Some(read) = comma_field(reader.text, reader.at) else {
            return None;
        };
        values[k] = read.value;
        reader.at = read.next;
    }
    if !byte_is(reader.text, reader.at, LF) {
        return None;
    }
    Some(LineFields {
        first: values[0],
        second: values[1],
        third: values[2],
        fourth: values[3],
        next: reader.at + 1,
    })
}

// A line with this letter and this many fields, four at most.
pub fn line_fields(text: &[u8], at: usize, letter: u8, count: usize) -> Option<LineFields>
    requires { count ≤ 4 }
    ensures value { fields_at count text.now result ≡ line letter count (drop at text.now) }
    ensures fields_place { FieldsPlace (at + 1) text.now result }
{
    if !byte_is(text, at, letter) {
        return None;
    }
    read_fields(JobReader { text, at: at + 1 }, count)
}
