// What the test programs share. A case file is read into arrays and slices are printed here, and nowhere else; docs/CASES.md describes
// the file.
#![tactic(auto)]

pub mod lines;
pub mod read;
pub mod show;

// Standard input, by its number: std's reader has no call that fills an array as far as the input goes, without a heap.
const STDIN: i32 = 0;

// Calls `one` on each case of the case file, with the text from that case on. A closure may hold values and
// a `Program` can't, so this can't call `run`.
pub fn each<F: Fn(&[u8])>(one: F)
    requires { F.IsAlwaysCallable one }
{
    let mut file = [0u8; 131072];
    let size = io::read_full(STDIN, &mut file);
    if size == file.len() {
        show::malformed();
    }
    let file = &file[..size];
    let mut at = lines::first_case(file, 0);
    // No `for`: where a case ends is known only at the case.
    while at < file.len() {
        one(&file[at..]);
        at = lines::next_case(file, at);
    }
}

// A test program: what it does with a case, which stands at the head of the text.
pub trait Program {
    fn one(text: &[u8]);
}

// Hands the program each case of the case file, with the text from that case on.
pub fn run<P: Program>() {
    let mut file = [0u8; 131072];
    let size = io::read_full(STDIN, &mut file);
    if size == file.len() {
        show::malformed();
    }
    let file = &file[..size];
    let mut at = lines::first_case(file, 0);
    // No `for`: where a case ends is known only at the case.
    while at < file.len() {
        P::one(&file[at..]);
        at = lines::next_case(file, at);
    }
}
