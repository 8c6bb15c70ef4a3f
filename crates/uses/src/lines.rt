// The U lines.
ghost use Rattle.std.specs.Prelude.{true, [], ◌≡◌, ℕ, ◌*◌, ◌^◌, ◌≤◌, ◌<◌, length, get_or};
ghost use Rattle.search.specs.Block.{block_of};
ghost use Rattle.text.specs.Printed.{concat_from};
ghost use Rattle.text.specs.Routes.{text_reply};
ghost use Rattle.text.specs.WriteSteps.{Put};
ghost use Rattle.search.specs.Tables.{kinds_sound, capacities_sound};
ghost use Rattle.uses.specs.Uses.{kind_count, logs_most, use_counts_of, uses_text, print_reply_of};
ghost use Rattle.uses.specs.Steps.{total_line};

use crate::{KINDS, PrintRefusal, tally};
use search::NODES_MOST;

// More bytes than the lines of all kinds can have.
const TEXT_MOST: usize = 4096;

// Writes the lines of all kinds.
fn put_lines(uses: &[u64], totals: &[u64], logs: u64, buffer: &mut [u8]) -> usize
    requires uses_len { (length uses.now ≡ kind_count) × (length totals.now ≡ kind_count) }
    requires by_index { (k : ℕ) → k < kind_count → get_or totals.now k 0 * logs < 2 ^ 64 }
    requires kind_count_in_bounds { length (concat_from (total_line uses.now totals.now logs) 0 kind_count) ≤ length buffer.old }
    ensures { let text = concat_from (total_line uses.now totals.now logs) 0 kind_count in
        Put 0 text buffer.old buffer.new result }
{
    let mut at = 0;
    for k in 0..KINDS {
        let fields = [k as u64, uses[k], totals[k] * logs];
        at = text::print_line(b'U', &fields, buffer, at);
    }
    at
}

// Writes the text of counts that passed their test. It is written to a buffer in which it always fits, which gives its length.
pub fn put_uses(
    kind: &[u8],
    capacity: &[u8],
    uses: &[u64; KINDS],
    logs: u64,
    buffer: &mut [u8],
) -> Result<usize, PrintRefusal>
    requires { (kinds_sound kind.now ≡ true) × (capacities_sound (length kind.now) capacity.now ≡ true) × (logs ≤ logs_most) }
    ensures { let text = uses_text (block_of kind.now capacity.now [] []) (use_counts_of uses.now logs) in
        print_reply_of result buffer.new ≡ text_reply text buffer.old }
{
    let mut wide = [0u16; NODES_MOST];
    tally::widen(capacity, &mut wide);
    let mut totals = [0u64; KINDS];
    tally::tally(kind, &wide, &mut totals);
    let mut trial = [0u8; TEXT_MOST];
    let needed = put_lines(uses, &totals, logs, &mut trial);
    if buffer.len() < needed {
        return Err(PrintRefusal::ShortBuffer(needed as u64));
    }
    Ok(put_lines(uses, &totals, logs, buffer))
}
