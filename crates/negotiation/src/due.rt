// Which nets an iteration takes.
ghost use Rattle.std.specs.Prelude.{◌≡◌, ℕ, ◌≤◌, ◌<◌, length};
ghost use Rattle.std.proofs.Math.Seq.{slice};
ghost use Rattle.price.specs.Test.{choose};
ghost use Rattle.price.specs.Lists.{up_to};
ghost use Rattle.negotiation.specs.Machine.{all_due};
ghost use Rattle.negotiation.specs.Records.{decode, path_nodes};
ghost use Rattle.job.specs.Steps.{AllBelow};
ghost use Rattle.negotiation.specs.Steps.{Whole, some_over, takes, DueReady};

use crate::tariff::Tariff;
use job::{JobTables, Terms};

// Every net that has sinks is due: under rule 1, and up to the iteration after which rule 2 is followed.
#[tactic(auto, unfolding(crate::specs::Machine::all_due))]
fn all_due(terms: Terms, iteration: u32) -> bool
    ensures { result ≡ all_due terms iteration }
{
    terms.rule == 1 || iteration <= terms.until
}

// One of the nodes in the log from `from` to below `to` has more users than its capacity.
fn path_crowded(log: &[u32], from: usize, to: usize, capacity: &[u8], users: &[u16]) -> bool
    requires from_le_to { (from ≤ to) × (to ≤ length log.now) × (length capacity.now ≡ length users.now) }
    requires all_below { AllBelow (length users.now) (slice from to log.now) }
    ensures { result ≡ some_over capacity.now users.now (slice from to log.now) }
{
    for k in from..to {
        let v = log[k] as usize;
        if (capacity[v] as u16) < users[v] {
            return true;
        }
    }
    false
}

// One of the nodes of the records from `from` to below `until` has more users than its capacity.
fn records_crowded(log: &[u32], from: usize, until: usize, capacity: &[u8], users: &[u16]) -> bool
    requires from_le_until { (from ≤ until) × (until ≤ length log.now) × (length capacity.now ≡ length users.now) }
    requires whole { Whole (length users.now) (slice from until log.now) }
    ensures { let tree = path_nodes (decode (slice from until log.now)) in
        result ≡ some_over capacity.now users.now tree }
{
    let mut at = from;
    // No `for`: a record's length stands in the record.
    while at < until {
        let end = at + 6 + log[at + 5] as usize;
        if path_crowded(log, at + 6, end, capacity, users) {
            return true;
        }
        at = end;
    }
    false
}

// The mark of a net. One without sinks is not due; of the others all are, or those whose tree, which stands in the log between the net's
// two places, is crowded.
// A mark is a byte as those of in_tree are, and no bool: the contracts of all who read it compare it with 0.
fn due_mark(
    all: bool,
    job: &JobTables,
    log: &[u32],
    tree_from: &[usize],
    tree_to: &[usize],
    users: &[u16],
    net: usize,
) -> u8
    requires due_ready { DueReady job.now.block.capacity.now job.now.first_sink.now log.now tree_from.now tree_to.now users.now }
    requires net_in_bounds { net < length tree_from.now }
    ensures { let taken = takes all job.now.block.capacity.now job.now.first_sink.now log.now tree_from.now tree_to.now users.now net in
        result ≡ choose taken 1 0 }
{
    let due = job.first_sink[net] < job.first_sink[net + 1]
        && (all || records_crowded(log, tree_from[net], tree_to[net], job.block.capacity, users));
    due as u8
}

// Marks the nets that the iteration takes, by what stands at its start.
pub fn mark_due(
    job: &JobTables,
    tariff: Tariff,
    log: &[u32],
    tree_from: &[usize],
    tree_to: &[usize],
    users: &[u16],
    due: &mut [u8],
)
    requires due_ready { DueReady job.now.block.capacity.now job.now.first_sink.now log.now tree_from.now tree_to.now users.now }
    requires due_len { length due.old ≡ length tree_from.now }
    ensures { let all = all_due job.now.terms tariff.iteration in
        let mark : (ℕ → ℕ) = λ k. choose (takes all job.now.block.capacity.now job.now.first_sink.now log.now
        tree_from.now tree_to.now users.now k) 1 0 in
        due.new ≡ up_to mark (length due.old) }
{
    let all = all_due(job.terms, tariff.iteration);
    for net in 0..due.len() {
        due[net] = due_mark(all, job, log, tree_from, tree_to, users, net);
    }
}
