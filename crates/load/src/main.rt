// The program: a line `seed,nodes,nets` from standard input, the job's text or the line of its refusal to standard output.
#![tactic(auto)]

// Standard input and output, by their numbers: std's reader has no call that fills an array as far as the input goes, without a heap.
const STDIN: i32 = 0;

const STDOUT: i32 = 1;

// Only the first 32 bytes of the input matter: a seed of 10 digits, two numbers of 6 and the commas after the first two are 24 bytes, and
// the two bytes after those show whether the line ends in LF with nothing after it. Further bytes can't change the answer.
fn main() {
    let mut input = [0u8; 32];
    let mut text = [0u8; 16384];
    let got = io::read_full(STDIN, &mut input);
    let bytes = generator::load_text(&input[..got], &mut text);
    io::write_all(STDOUT, &text[..bytes]);
}
