// The entries of a case's line. After the line's name stands a list of numbers, each after a blank: `4` is an entry, `7*50` fifty of
// them, and `2-5` is 2 3 4 5. Or there stands a text after one blank: `/` is an LF, `<0>` the byte 0, `<7*40>` forty bytes 7, any other
// byte itself. What has another form, or does not fit, is printed as malformed.
ghost use Rattle.std.specs.Prelude.{◌≡◌, ℕ, ◌<◌, ◌≤◌, length, slice_index};

use crate::{lines, show};
use std::num::TryFromIntError;

// A number's value, and the place after it.
#[derive(Clone, Copy)]
struct Parsed {
    value: u64,
    next: usize,
}

// What is left of a line: this many entries, of which the first is `value` and each next one greater by `step`, then the text from `at` on.
#[derive(Clone, Copy)]
struct Rest {
    at: usize,
    value: u64,
    step: u64,
    left: u64,
}

// The byte at this place, or 0.
fn byte_at(case: &[u8], at: usize) -> u8 {
    *case.get(at).unwrap_or(&0)
}

// The place after this one, or the end of the text.
fn after(case: &[u8], at: usize) -> usize {
    if at < case.len() { at + 1 } else { at }
}

// The number that is at this place; from 18446744073709551610 on it is 2^64 - 1.
fn number(case: &[u8], from: usize) -> Parsed {
    let mut value: u64 = 0;
    for next in from..case.len() {
        let b = case[next];
        if !b.is_ascii_digit() {
            return Parsed { value, next };
        }
        value = if value > 1844674407370955160 {
            u64::MAX
        } else {
            value * 10 + (b - b'0') as u64
        };
    }
    Parsed {
        value,
        next: case.len(),
    }
}

// So many times this entry.
fn times(value: u64, left: u64, at: usize) -> Rest {
    Rest {
        at,
        value,
        step: 0,
        left,
    }
}

// No entry is left.
fn nothing(at: usize) -> Rest {
    times(0, 0, at)
}

fn wrong(at: usize) -> Rest {
    show::malformed();
    nothing(at)
}

// The numbers from the first to the last.
fn rising(first: u64, last: u64, at: usize) -> Rest {
    if last < first || last - first > 65536 {
        return wrong(at);
    }
    Rest {
        at,
        value: first,
        step: 1,
        left: last - first + 1,
    }
}

// The entries of the item at this place: a number, `value*times` or `first-last`.
fn item(case: &[u8], from: usize) -> Rest {
    let first = number(case, from);
    if first.next == from {
        return wrong(from);
    }
    match byte_at(case, first.next) {
        b'*' => {
            let second = number(case, after(case, first.next));
            times(first.value, second.value, second.next)
        }
        b'-' => {
            let second = number(case, after(case, first.next));
            rising(first.value, second.value, second.next)
        }
        _ => times(first.value, 1, first.next),
    }
}

// The next item of a list.
fn list_item(case: &[u8], at: usize) -> Rest {
    if lines::is_empty(case, at) {
        return nothing(at);
    }
    if byte_at(case, at) != b' ' {
        return wrong(at);
    }
    item(case, after(case, at))
}

// The next bytes of a text.
fn text_item(case: &[u8], at: usize) -> Rest {
    if lines::is_empty(case, at) {
        return nothing(at);
    }
    match byte_at(case, at) {
        b'<' => closed(case, item(case, after(case, at))),
        b'/' => times(10, 1, after(case, at)),
        b => times(b as u64, 1, after(case, at)),
    }
}

// The item before a `>`, and the place after that.
fn closed(case: &[u8], item: Rest) -> Rest {
    if byte_at(case, item.at) != b'>' {
        return wrong(item.at);
    }
    Rest {
        at: after(case, item.at),
        ..item
    }
}

// The place after the name that the line begins with.
fn after_name(case: &[u8], number: usize) -> usize {
    let from = lines::line(case, number);
    if lines::is_empty(case, from) {
        show::malformed();
    }
    for k in from..case.len() {
        if case[k] <= b' ' {
            return k;
        }
    }
    case.len()
}

// The value as an entry. Where it is too large, that is printed, and the entry has its low bits.
fn fitted<T: TryFrom<u64, Error = TryFromIntError>>(value: u64) -> Result<T, TryFromIntError> {
    T::try_from(value)
        .or_else(|_| {
            show::malformed();
            T::try_from(value % 4294967296)
        })
        .or_else(|_| T::try_from(value % 65536))
        .or_else(|_| T::try_from(value % 256))
}

// Fills the array with the entries from this place on, of which `item` reads the next: those that are filled.
fn filled<'a, T: Copy + TryFrom<u64, Error = TryFromIntError>, F: Fn(&[u8], usize) -> Rest>(
    case: &[u8],
    from: usize,
    item: F,
    into: &'a mut [T],
) -> &'a mut [T]
    requires { F.IsAlwaysCallable item }
    ensures { length result.now ≤ length into.old }
{
    let mut rest = item(case, from);
    for k in 0..into.len() {
        if rest.left == 0 {
            return &mut into[..k];
        }
        if let Ok(entry) = fitted(rest.value) {
            into[k] = entry;
        }
        rest.value = rest.value.wrapping_add(rest.step);
        rest.left -= 1;
        if rest.left == 0 {
            rest = item(case, rest.at);
        }
    }
    if rest.left > 0 {
        show::malformed();
    }
    into
}

// The list of the case's line of this number, in an array's first entries.
pub fn entries<'a, T: Copy + TryFrom<u64, Error = TryFromIntError>>(
    case: &[u8],
    number: usize,
    into: &'a mut [T],
) -> &'a mut [T]
    ensures { length result.now ≤ length into.old }
{
    filled(case, after_name(case, number), list_item, into)
}

// The list of a line that a case may leave out: empty if the line isn't there.
pub fn entries_if<'a, T: Copy + TryFrom<u64, Error = TryFromIntError>>(
    there: bool,
    case: &[u8],
    number: usize,
    into: &'a mut [T],
) -> &'a mut [T]
    ensures { length result.now ≤ length into.old }
{
    if there {
        entries(case, number, into)
    } else {
        &mut into[..0]
    }
}

// The text of the case's line of this number.
pub fn text<'a>(case: &[u8], number: usize, into: &'a mut [u8]) -> &'a mut [u8]
    ensures { length result.now ≤ length into.old }
{
    filled(case, after(case, after_name(case, number)), text_item, into)
}

// An array's first entries, this many, which it must have.
pub fn first<'a, T>(count: u32, array: &'a mut [T]) -> &'a mut [T]
    ensures so_many { count ≤ length array.old → length result.now ≡ count }
    ensures no_more { length result.now ≤ length array.old }
    ensures whole { length array.old < count → length result.now ≡ length array.old }
{
    if array.len() < count as usize {
        show::malformed();
        return array;
    }
    &mut array[..count as usize]
}

// The numbers of a line, as many as a call has at most: those that are missing are 0.
pub fn padded<const N: usize>(numbers: &[u32]) -> [u32; N]
    ensures { (k : ℕ) → k < N → slice_index result k ≡ slice_index numbers.now k }
{
    let mut all = [0; N];
    let some = N.min(numbers.len());
    all[..some].copy_from_slice(&numbers[..some]);
    all
}

// This many numbers stand in a line.
pub fn exactly(count: usize, wanted: usize) {
    if count != wanted {
        show::malformed();
    }
}

// A case of this many lines ends there.
pub fn end(case: &[u8], count: usize) {
    if !lines::is_empty(case, lines::line(case, count)) {
        show::malformed();
    }
}
