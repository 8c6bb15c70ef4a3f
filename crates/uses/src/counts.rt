// Whether a block and counts of uses may be taken: refusals 5 and 13.
ghost use Rattle.std.specs.Prelude.{◌≡◌, ◌<◌, ◌≤◌, length, MatchOption};
ghost use Rattle.price.specs.Bounds.{nodes_most};
ghost use Rattle.price.specs.Lists.{first_below};
ghost use Rattle.search.specs.Block.{block_in};
ghost use Rattle.uses.specs.Uses.{kind_count, logs_most, use_counts_of, counts_refusal};
ghost use Rattle.uses.specs.Steps.{AtMost, test_refusal, over_nodes};

use crate::{KINDS, LOGS_MOST, tally};
use search::{BadTable, NODES_MOST, Tables};

// The most nets, which can each use a node once a log.
const NETS_MOST: u64 = 512;

// Why the block or the counts handed in are refused.
#[derive(Clone, Copy, Debug, PartialEq, Eq)]
pub enum CountsRefusal {
    // 5: this table breaks its rule.
    BadTable(u32),
    // 13: the lowest kind with too many uses, or 54 for too many logs.
    BadCount(u32),
}

impl From<BadTable> for CountsRefusal {
    ghost use Rattle.std.specs.Prelude.{◌≡◌};
    ghost use Rattle.uses.specs.declared.counts.CountsRefusal.TheVariants as t;

    ghost from_gives = { λ bad refusal. refusal ≡ t.BadTable bad.table };

    fn from(bad: BadTable) -> CountsRefusal {
        CountsRefusal::BadTable(bad.table)
    }
}

// The lowest kind that has more uses than all nets in this many logs can make.
fn first_over(uses: &[u64], nodes: &[u64], logs: u64) -> Option<u32>
    requires { (length uses.now ≡ kind_count) × (length nodes.now ≡ kind_count) × AtMost nodes_most nodes.now × (logs ≤ logs_most) }
    ensures { let lowest = first_below (over_nodes uses.now nodes.now logs) kind_count in
        MatchOption result (lowest ≡ kind_count) (λ k. (k ≡ lowest) × (k < kind_count)) }
{
    for k in 0..KINDS {
        if NETS_MOST * logs * nodes[k] < uses[k] {
            return Some(k as u32);
        }
    }
    None
}

// Tests tables 1 to 4, the number of logs, and the uses of each kind.
pub fn test_counts(tables: &Tables, uses: &[u64; KINDS], logs: u64) -> Result<(), CountsRefusal>
    ensures { test_refusal result ≡ counts_refusal (block_in tables.now) (use_counts_of uses.now logs) }
{
    job::faulty_block(tables)?;
    if LOGS_MOST < logs {
        return Err(CountsRefusal::BadCount(KINDS as u32));
    }
    let ones = [1u16; NODES_MOST];
    let mut nodes = [0u64; KINDS];
    tally::tally(tables.kind, &ones, &mut nodes);
    match first_over(uses, &nodes, logs) {
        Some(kind) => Err(CountsRefusal::BadCount(kind)),
        None => Ok(()),
    }
}
