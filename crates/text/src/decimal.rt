// Numbers and lines as bytes in a buffer.
ghost use Rattle.std.specs.Prelude.{[], ◌∷◌, ◌≡◌, ◌+◌, ◌≤◌, length};
ghost use Rattle.text.specs.Decimal.{decimal};
ghost use Rattle.text.specs.Lines.{comma};
ghost use Rattle.text.specs.WriteSteps.{Put};

// The byte that ends a line.
pub const LF: u8 = 10;

// How many digits a number has, found by divisions.
fn long_count(n: u64) -> usize
    ensures { (result ≡ length (decimal n)) × (1 ≤ result) × (result ≤ 20) }
{
    let mut count = 1;
    let mut left = n / 10;
    // No `for`: the number itself tells how many digits it has.
    while 0 < left {
        left = left / 10;
        count += 1;
    }
    count
}

// How many digits a number has. Most numbers of a text have four at most, and need no division.
pub fn digit_count(n: u64) -> usize
    ensures { (result ≡ length (decimal n)) × (1 ≤ result) × (result ≤ 20) }
{
    if n < 10 {
        return 1;
    }
    if n < 100 {
        return 2;
    }
    if n < 1_000 {
        return 3;
    }
    if n < 10_000 {
        return 4;
    }
    long_count(n)
}

// Writes a number's digits, the last one first. 48 is the digit 0.
pub fn put_number(buffer: &mut [u8], at: usize, n: u64) -> usize
    requires { at + length (decimal n) ≤ length buffer.old }
    ensures { Put at (decimal n) buffer.old buffer.new result }
{
    let count = digit_count(n);
    let mut left = n;
    for k in (0..count).rev() {
        buffer[at + k] = (48 + left % 10) as u8;
        left = left / 10;
    }
    at + count
}

pub fn put_byte(buffer: &mut [u8], at: usize, byte: u8) -> usize
    requires { at + 1 ≤ length buffer.old }
    ensures { Put at (byte ∷ []) buffer.old buffer.new result }
{
    buffer[at] = byte;
    at + 1
}

// Writes a comma and a number.
pub fn put_field(buffer: &mut [u8], at: usize, n: u64) -> usize
    requires { at + (1 + length (decimal n)) ≤ length buffer.old }
    ensures { Put at (comma ∷ decimal n) buffer.old buffer.new result }
{
    let next = put_byte(buffer, at, b',');
    put_number(buffer, next, n)
}
