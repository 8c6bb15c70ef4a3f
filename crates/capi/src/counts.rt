// Counts of uses that a caller lends as a slice.
ghost use Rattle.std.specs.Prelude.{◌≡◌, ◌≤◌, length, take, drop};
ghost use Rattle.search.specs.Block.{block_in};
ghost use Rattle.uses.specs.Uses.{kind_count, use_counts_of, add_reply_of, add_reply, print_reply_of, print_reply};

use search::Tables;
use uses::{AddRefusal, KINDS, PrintRefusal};

// Adds a log to the entries of all kinds; those past them stay.
pub fn add_log(
    tables: &Tables,
    counts: &mut [u64],
    logs: u64,
    log: &[u32],
) -> Result<u64, AddRefusal>
    requires { kind_count ≤ length counts.old }
    ensures { let reply = add_reply (block_in tables.now) (use_counts_of (take kind_count counts.old) logs) log.now in
        (add_reply_of logs result (take kind_count counts.new) ≡ reply)
        × (drop kind_count counts.new ≡ drop kind_count counts.old) }
{
    let mut all = [0u64; KINDS];
    all.copy_from_slice(&counts[..KINDS]);
    let answer = uses::add_log(tables, &mut all, logs, log);
    counts[..KINDS].copy_from_slice(&all);
    answer
}

// Writes the text of the entries of all kinds.
pub fn write_uses(
    tables: &Tables,
    counts: &[u64],
    logs: u64,
    buffer: &mut [u8],
) -> Result<usize, PrintRefusal>
    requires { kind_count ≤ length counts.now }
    ensures { print_reply_of result buffer.new
        ≡ print_reply (block_in tables.now) (use_counts_of (take kind_count counts.now) logs) buffer.old }
{
    let mut all = [0u64; KINDS];
    all.copy_from_slice(&counts[..KINDS]);
    uses::write_uses(tables, &all, logs, buffer)
}
