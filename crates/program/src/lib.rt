// What the programs `router` and `picture` do: a job text from standard input, its routes in a style or the line of its refusal to
// standard output.
#![tactic(auto)]

use flow::BYTES;
use text::Style;

// Standard input and output, by their numbers: std's reader has no call that fills an array as far as the input goes, without a heap.
const STDIN: i32 = 0;

const STDOUT: i32 = 1;

// One byte more than a job text may have, so that a text that is too long is detected.
const INPUT: usize = 65537;

// Answers standard input in this style.
pub fn answer_input(style: Style) {
    let mut input = [0u8; INPUT];
    let mut routes = [0u8; BYTES];
    let got = io::read_full(STDIN, &mut input);
    let bytes = flow::answer(style, &input[..got], &mut routes);
    io::write_all(STDOUT, &routes[..bytes]);
}
