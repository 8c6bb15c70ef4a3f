// Prints the name of each case of a case file (docs/CASES.md), and a word after it. The word is held by the closure that `cases::each`
// is handed. The expected lines stand in the file stdout.
#![tactic(auto)]

use cases::show;

fn names(word: &[u8]) {
    cases::each(|case| {
        show::name(case);
        show::call(word);
        show::line_end();
    })
}

fn main() {
    names(b"found")
}
