// A net's part of an iteration: it drops its old tree before its turns, and its new tree counts after them.
ghost use Rattle.std.specs.Prelude.{◌≡◌, length, get_or};
ghost use Rattle.std.proofs.Math.Seq.{slice};
ghost use Rattle.negotiation.specs.Records.{decode, path_nodes};
ghost use Rattle.negotiation.specs.Steps.{RipReady, RippedUp, CountReady, TreeCounted};
ghost use Rattle.negotiation.specs.Steps.{BeginReady, Begun, Idle, EndReady, Ended, Passed};

use crate::trees;
use job::JobTables;

// The tree that stands in the log from `from` to below `to` is dropped: its nodes lose a user each.
fn rip_up(log: &[u32], from: usize, to: usize, users: &mut [u16], in_tree: &mut [u8])
    requires { RipReady (length in_tree.old) from to log.now users.old in_tree.old }
    ensures { let tree = path_nodes (decode (slice from to log.now)) in
        let marks = in_tree.old in
        RippedUp (length marks) tree users.old marks users.new in_tree.new }
{
    trees::drop_records(log, from, to, users, in_tree);
    trees::unmark_records(log, from, to, in_tree);
}

// The tree that stands in the log from `from` to below `to` counts: its nodes gain a user each, and lose their mark.
fn count_tree(log: &[u32], from: usize, to: usize, users: &mut [u16], in_tree: &mut [u8])
    requires { CountReady (length in_tree.old) from to log.now users.old in_tree.old }
    ensures { let tree = path_nodes (decode (slice from to log.now)) in
        let marks = in_tree.old in
        TreeCounted (length marks) tree users.old marks users.new in_tree.new }
{
    trees::add_records(log, from, to, users, in_tree);
}

// A net that is due drops its old tree and marks its source. The answer is how many turns it makes at most: none where it is not due.
pub fn begin_net(
    job: &JobTables,
    log: &[u32],
    net: usize,
    due: &[u8],
    tree_from: &[usize],
    tree_to: &[usize],
    users: &mut [u16],
    in_tree: &mut [u8],
) -> usize
    requires { BeginReady log.now job.now.source.now job.now.first_sink.now net due.now tree_from.now tree_to.now
        users.old in_tree.old }
    ensures idle { get_or due.now net 0 ≡ 0
        → Idle result users.old in_tree.old users.new in_tree.new }
    ensures begun { (get_or due.now net 0 ≡ 0 → ⊥)
        → Begun log.now job.now.source.now job.now.first_sink.now net tree_from.now tree_to.now
        users.old in_tree.old result users.new in_tree.new }
{
    if due[net] == 0 {
        return 0;
    }
    rip_up(log, tree_from[net], tree_to[net], users, in_tree);
    let s = job.source[net] as usize;
    in_tree[s] = 1;
    (job.first_sink[net + 1] - job.first_sink[net]) as usize
}

// A net that is due counts its new tree, which stands in the log from `first` to below `until`, and keeps these two places.
pub fn end_net(
    log: &[u32],
    net: usize,
    first: usize,
    until: usize,
    due: &[u8],
    users: &mut [u16],
    in_tree: &mut [u8],
    tree_from: &mut [usize],
    tree_to: &mut [usize],
)
    requires { EndReady log.now net first until due.now users.old in_tree.old tree_from.old tree_to.old }
    ensures passed { get_or due.now net 0 ≡ 0
        → Passed users.old in_tree.old tree_from.old tree_to.old
        users.new in_tree.new tree_from.new tree_to.new }
    ensures ended { (get_or due.now net 0 ≡ 0 → ⊥)
        → Ended log.now net first until
        users.old in_tree.old tree_from.old tree_to.old
        users.new in_tree.new tree_from.new tree_to.new }
{
    if due[net] != 0 {
        count_tree(log, first, until, users, in_tree);
        tree_from[net] = first;
        tree_to[net] = until;
    }
}
