// A load anyone can make again: from a seed, a node count and a net count to a job's text.
#![tactic(auto)]

ghost use Rattle.std.specs.Prelude.{◌≡◌, ◌≤◌, [], ◌∷◌, length};
ghost use Rattle.text.specs.Lines.{letter_x, print_line};
ghost use Rattle.text.specs.WriteSteps.{Put};
ghost use Rattle.generator.specs.Load.{load_text};
ghost use Rattle.generator.specs.Ask.{shown_reply_of, shown_reply};

mod ask;
mod draws;
mod nets;
mod nodes;
mod rows;

use ask::Load;

// Writes the text of a load.
fn put_load(load: Load, buffer: &mut [u8]) -> usize
    requires { (8 ≤ load.nodes) × (load.nodes ≤ 256) × (length (load_text load.seed load.nodes load.nets) ≤ length buffer.old) }
    ensures { Put 0 (load_text load.seed load.nodes load.nets) buffer.old buffer.new result }
{
    let Load { seed, nodes, nets } = load;
    let first_row = draws::steps(seed, nodes - 2 * (nodes / 4));
    let first_net = draws::steps(first_row, 3 * nodes);
    let edges = rows::edge_count(first_row, nodes);
    let fields = [nodes as u64, edges as u64, nets as u64, 100];
    let one = text::print_line(b'F', &fields, buffer, 0);
    let two = nodes::put_nodes(seed, nodes, buffer, one);
    let three = rows::put_rows(first_row, nodes, buffer, two);
    nets::put_nets(first_net, nodes, nets, buffer, three)
}

// Writes the line of a refusal.
fn put_refusal(place: u32, buffer: &mut [u8]) -> usize
    requires { length (print_line letter_x (17 ∷ place ∷ [])) ≤ length buffer.old }
    ensures { Put 0 (print_line letter_x (17 ∷ place ∷ [])) buffer.old buffer.new result }
{
    let fields = [17, place as u64];
    text::print_line(b'X', &fields, buffer, 0)
}

// What the program prints for its input, and how many bytes that is: the job's text, or the line of the refusal.
pub fn load_text(input: &[u8], buffer: &mut [u8; 16384]) -> usize
    ensures answers { shown_reply_of result buffer.new ≡ shown_reply input.now buffer.old }
{
    match ask::asked(input) {
        Ok(load) => put_load(load, buffer),
        Err(away) => put_refusal(away.place, buffer),
    }
}
