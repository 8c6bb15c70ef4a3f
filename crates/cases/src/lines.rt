// The lines of a case file: cases stand in blocks, separated by empty lines. Lines that begin with # and empty lines before a case are
// ignored.
ghost use Rattle.std.specs.Prelude.{◌≡◌, ◌<◌, ◌≤◌, length, drop};
ghost use Rattle.cases.specs.Lines.{next_line, line_from, empty_line, call_letter};

// The place after the line that is at this place, or the end of the text.
fn next_line(text: &[u8], at: usize) -> usize
    requires { at < length text.now }
    ensures value { result ≡ next_line text.now at }
    ensures lower_bound { at < result }
{
    for k in at..text.len() {
        if text[k] == 10 {
            return k + 1;
        }
    }
    text.len()
}

// The place of the first case from here on, past comments and empty lines; the end of the text, if there is none.
pub fn first_case(text: &[u8], from: usize) -> usize
    ensures { from ≤ result }
{
    let mut k = from;
    // No `for`: where a line ends is known only at the line.
    while k < text.len() && matches!(text[k], b'\n' | b'#') {
        k = next_line(text, k);
    }
    k
}

// The place of the empty line after the case that begins here, or the end of the text.
fn case_end(text: &[u8], at: usize) -> usize
    requires { at < length text.now }
    ensures { at < result }
{
    let mut k = next_line(text, at);
    // No `for`: where a line ends is known only at the line.
    while k < text.len() && text[k] != 10 {
        k = next_line(text, k);
    }
    k
}

// The place of the case after the one that begins here.
pub fn next_case(text: &[u8], at: usize) -> usize
    ensures { at < length text.now → at < result }
{
    if text.len() <= at {
        return at;
    }
    first_case(text, case_end(text, at))
}

// The place of a case's line, from 0; the case's name is line 0. The end of the text, if there is none.
pub fn line(case: &[u8], number: usize) -> usize
    ensures { result ≡ line_from case.now 0 number }
{
    let mut at = 0;
    for _ in 0..number {
        if case.len() <= at {
            return at;
        }
        at = next_line(case, at);
    }
    at
}

// Whether the line at this place is empty, or the text is at its end.
pub fn is_empty(case: &[u8], at: usize) -> bool
    ensures { result ≡ empty_line (drop at case.now) }
{
    case.len() <= at || case[at] == 10
}

// A letter, from 0, of the word that names the case's call, with which line 1 begins; 0, if there is none.
pub fn call(case: &[u8], letter: usize) -> u8
    ensures { result ≡ call_letter case.now letter }
{
    let at = line(case, 1);
    if case.len() <= at || case.len() - at <= letter {
        return 0;
    }
    case[at + letter]
}
