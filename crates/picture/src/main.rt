// The program: a job text from standard input, the picture of its routes or the line of its refusal to standard output.
#![tactic(auto)]

use text::Style;

fn main() {
    program::answer_input(Style::Picture)
}
