// The use of wires over many jobs: counts of uses by kind, to which logs are added, and their text.
#![tactic(auto)]

ghost use Rattle.std.specs.Prelude.{true, [], ◌≡◌};
ghost use Rattle.search.specs.Block.{block_of};
ghost use Rattle.search.specs.Block.{block_in};
ghost use Rattle.search.specs.Tables.{kinds_sound};
ghost use Rattle.uses.specs.Uses.{use_counts_of, add_reply_of, tested_reply, add_reply, print_reply_of, print_reply};
ghost use Rattle.uses.specs.Steps.{count_most, AtMost, add_due, print_due};

// The kinds, each of which has a count.
pub const KINDS: usize = 54;

// The most logs that counts may have.
const LOGS_MOST: u64 = 65535;

// Why a log is not added.
#[derive(Clone, Copy, Debug, PartialEq, Eq)]
pub enum AddRefusal {
    // 5: this table breaks its rule.
    BadTable(u32),
    // 13: the uses of this kind are more than this many logs can have, or 54 for too many logs.
    BadCount(u32),
    // 10: the record that begins at this word is unsound.
    Unsound(usize),
    // 16: the counts have this many logs already, which is the most.
    LogsFull(u64),
}

// Why the uses are not printed.
#[derive(Clone, Copy, Debug, PartialEq, Eq)]
pub enum PrintRefusal {
    // 5: this table breaks its rule.
    BadTable(u32),
    // 13: the uses of this kind are more than this many logs can have, or 54 for too many logs.
    BadCount(u32),
    // 11: the buffer is shorter than the text, which takes this many bytes.
    ShortBuffer(u64),
}

mod counts;
mod lines;
mod refused;
mod tally;

use counts::CountsRefusal;
use search::{NODES_MOST, Tables};
use text::UnsoundLog;

impl From<CountsRefusal> for AddRefusal {
    ghost from_gives = { λ due refusal. refusal ≡ add_due due };

    fn from(due: CountsRefusal) -> AddRefusal {
        match due {
            CountsRefusal::BadTable(table) => AddRefusal::BadTable(table),
            CountsRefusal::BadCount(kind) => AddRefusal::BadCount(kind),
        }
    }
}

impl From<UnsoundLog> for AddRefusal {
    ghost use Rattle.uses.specs.declared.AddRefusal.TheVariants.{Unsound};

    ghost from_gives = { λ log refusal. refusal ≡ Unsound log.word };

    fn from(log: UnsoundLog) -> AddRefusal {
        AddRefusal::Unsound(log.word)
    }
}

impl From<CountsRefusal> for PrintRefusal {
    ghost from_gives = { λ due refusal. refusal ≡ print_due due };

    fn from(due: CountsRefusal) -> PrintRefusal {
        match due {
            CountsRefusal::BadTable(table) => PrintRefusal::BadTable(table),
            CountsRefusal::BadCount(kind) => PrintRefusal::BadCount(kind),
        }
    }
}

// Adds a log to counts that passed their test.
fn add_tested(
    kind: &[u8],
    uses: &mut [u64; KINDS],
    logs: u64,
    log: &[u32],
) -> Result<u64, AddRefusal>
    requires { (kinds_sound kind.now ≡ true) × AtMost count_most uses.old }
    ensures { add_reply_of logs result uses.new
        ≡ tested_reply (block_of kind.now [] [] []) (use_counts_of uses.old logs) log.now }
{
    let mut users = [0u16; NODES_MOST];
    text::node_users(kind.len(), log, &mut users)?;
    if LOGS_MOST <= logs {
        return Err(AddRefusal::LogsFull(LOGS_MOST));
    }
    tally::tally(kind, &users, uses);
    Ok(logs + 1)
}

// Adds the uses of a log's final trees to the counts of their kinds. The counts then have as many logs as it says.
pub fn add_log(
    tables: &Tables,
    uses: &mut [u64; KINDS],
    logs: u64,
    log: &[u32],
) -> Result<u64, AddRefusal>
    ensures answers { add_reply_of logs result uses.new ≡ add_reply (block_in tables.now) (use_counts_of uses.old logs) log.now }
{
    counts::test_counts(tables, uses, logs)?;
    add_tested(tables.kind, uses, logs, log)
}

// Writes a line for each kind: its uses, and the capacity that this many logs could have used. Says how many bytes these are.
pub fn write_uses(
    tables: &Tables,
    uses: &[u64; KINDS],
    logs: u64,
    buffer: &mut [u8],
) -> Result<usize, PrintRefusal>
    ensures answers { print_reply_of result buffer.new ≡ print_reply (block_in tables.now) (use_counts_of uses.now logs) buffer.old }
{
    counts::test_counts(tables, uses, logs)?;
    lines::put_uses(tables.kind, tables.capacity, uses, logs, buffer)
}
