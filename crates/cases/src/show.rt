// Printing. A line has the case's name, the answer and every lent slice after the call: `X,` and a refusal's numbers, `=` and a call's
// own numbers, and ` |` before the entries of a slice.

// Standard output, by its number: the runtime's handle would have to pass through each function here and in the test programs.
const STDOUT: i32 = 1;

fn letter(b: u8) {
    io::write_all(STDOUT, &[b]);
}

fn number(n: u64) {
    io::print_decimal(STDOUT, n);
}

// Stands in the output of a case that is not as it should be: no expected output has it.
pub fn malformed() {
    io::write_all(STDOUT, b" malformed");
}

// The case's name, which is its first line, and a colon.
pub fn name(case: &[u8]) {
    for b in case {
        if *b == 10 {
            break;
        }
        letter(*b);
    }
    letter(b':');
}

// A call's name.
pub fn call(word: &[u8]) {
    letter(b' ');
    io::write_all(STDOUT, word);
}

pub fn line_end() {
    letter(10);
}

// A number of a refusal.
pub fn value(n: u64) {
    letter(b',');
    number(n);
}

// `X` and a refusal's numbers: its row, and those beside it.
pub fn refused(row: u64, first: u64, second: Option<u64>) {
    letter(b' ');
    letter(b'X');
    value(row);
    value(first);
    if let Some(n) = second {
        value(n);
    }
}

// A number of an answer or an entry of a slice.
pub fn entry(n: u64) {
    letter(b' ');
    number(n);
}

// `=` and the numbers of an answer.
pub fn answered(numbers: &[u64]) {
    letter(b' ');
    letter(b'=');
    for n in numbers {
        entry(*n);
    }
}

fn bar() {
    letter(b' ');
    letter(b'|');
}

// The entries of a table or buffer.
pub fn entries<N: Copy + Into<u64>>(table: &[N]) {
    bar();
    for n in table {
        entry((*n).into());
    }
}

// `~` is a 7, `/` an LF; any other byte that has no place in a routes text is shown as its number.
fn text_byte(b: u8) {
    match b {
        7 => letter(b'~'),
        10 => letter(b'/'),
        b',' | b'0'..=b'9' | b'A'..=b'Z' => letter(b),
        _ => {
            letter(b'<');
            number(b as u64);
            letter(b'>');
        }
    }
}

// The bytes of a text buffer.
pub fn text(buffer: &[u8]) {
    bar();
    letter(b' ');
    for b in buffer {
        text_byte(*b);
    }
}
