// The program: a job text from standard input, its routes text or the line of its refusal to standard output.
#![tactic(auto)]

use text::Style;

fn main() {
    program::answer_input(Style::Lines)
}
