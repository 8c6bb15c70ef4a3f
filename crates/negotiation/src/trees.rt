// Route trees as the router keeps them: a mark for each node of the net that is routed, and for every node how many nets have it.
// A net's old tree is read off the log.
ghost use Rattle.std.specs.Prelude.{◌≡◌, ◌≤◌, length, take};
ghost use Rattle.std.proofs.Math.Seq.{slice};
ghost use Rattle.negotiation.specs.Records.{decode, path_nodes};
ghost use Rattle.job.specs.Steps.{AllBelow, Stored};
ghost use Rattle.negotiation.specs.Steps.{Dropped, UsersAdded, CanDrop, CanAddMarked, Whole};

// The path at the beginning of the work slice joins the tree.
pub fn mark_path(work: &[u64], count: usize, in_tree: &mut [u8])
    requires { (count ≤ length work.now) × AllBelow (length in_tree.old) (take count work.now) }
    ensures { Stored 1 (take count work.now) in_tree.old in_tree.new }
{
    for k in 0..count {
        let v = work[k] as usize;
        in_tree[v] = 1;
    }
}

// The nodes in the log from `from` to below `to` that have no mark lose a user each, and get one.
fn drop_path(log: &[u32], from: usize, to: usize, users: &mut [u16], in_tree: &mut [u8])
    requires from_le_to { (from ≤ to) × (to ≤ length log.now) × (length users.old ≡ length in_tree.old) }
    requires all_below { AllBelow (length in_tree.old) (slice from to log.now) }
    requires can_drop { CanDrop (length in_tree.old) (slice from to log.now) users.old in_tree.old }
    ensures { let path = slice from to log.now in
        let marks = in_tree.old in
        Dropped (length marks) path users.old marks users.new in_tree.new }
{
    for k in from..to {
        let v = log[k] as usize;
        if in_tree[v] == 0 {
            users[v] -= 1;
        }
        in_tree[v] = 1;
    }
}

// The nodes in the log from `from` to below `to` gain a user each, once, and lose their mark.
fn add_path(log: &[u32], from: usize, to: usize, users: &mut [u16], in_tree: &mut [u8])
    requires from_le_to { (from ≤ to) × (to ≤ length log.now) × (length users.old ≡ length in_tree.old) }
    requires all_below { AllBelow (length in_tree.old) (slice from to log.now) }
    requires can_add_marked { CanAddMarked (length in_tree.old) users.old in_tree.old }
    ensures { let path = slice from to log.now in
        let marks = in_tree.old in
        UsersAdded (length marks) path users.old marks users.new in_tree.new }
{
    for k in from..to {
        let v = log[k] as usize;
        if in_tree[v] == 1 {
            users[v] += 1;
        }
        in_tree[v] = 0;
    }
}

// The nodes in the log from `from` to below `to` lose their mark.
fn unmark_path(log: &[u32], from: usize, to: usize, in_tree: &mut [u8])
    requires from_le_to { (from ≤ to) × (to ≤ length log.now) }
    requires all_below { AllBelow (length in_tree.old) (slice from to log.now) }
    ensures { Stored 0 (slice from to log.now) in_tree.old in_tree.new }
{
    for k in from..to {
        let v = log[k] as usize;
        in_tree[v] = 0;
    }
}

// The nodes of the records from `from` to below `until` lose a user each, once, and are marked.
pub fn drop_records(log: &[u32], from: usize, until: usize, users: &mut [u16], in_tree: &mut [u8])
    requires from_le_until { (from ≤ until) × (until ≤ length log.now) × (length users.old ≡ length in_tree.old) }
    requires whole { Whole (length in_tree.old) (slice from until log.now) }
    requires ready { let old = path_nodes (decode (slice from until log.now)) in
        CanDrop (length in_tree.old) old users.old in_tree.old }
    ensures { let old = path_nodes (decode (slice from until log.now)) in
        let marks = in_tree.old in
        Dropped (length marks) old users.old marks users.new in_tree.new }
{
    let mut at = from;
    // No `for`: a record's length stands in the record.
    while at < until {
        let end = at + 6 + log[at + 5] as usize;
        drop_path(log, at + 6, end, users, in_tree);
        at = end;
    }
}

// The nodes of the records from `from` to below `until` lose their mark.
pub fn unmark_records(log: &[u32], from: usize, until: usize, in_tree: &mut [u8])
    requires from_le_until { (from ≤ until) × (until ≤ length log.now) }
    requires whole { Whole (length in_tree.old) (slice from until log.now) }
    ensures { let passed = path_nodes (decode (slice from until log.now)) in
        Stored 0 passed in_tree.old in_tree.new }
{
    let mut at = from;
    // No `for`: a record's length stands in the record.
    while at < until {
        let end = at + 6 + log[at + 5] as usize;
        unmark_path(log, at + 6, end, in_tree);
        at = end;
    }
}

// The nodes of the records from `from` to below `until` gain a user each, once, and lose their mark.
pub fn add_records(log: &[u32], from: usize, until: usize, users: &mut [u16], in_tree: &mut [u8])
    requires from_le_until { (from ≤ until) × (until ≤ length log.now) × (length users.old ≡ length in_tree.old) }
    requires whole { Whole (length in_tree.old) (slice from until log.now) }
    requires can_add_marked { CanAddMarked (length in_tree.old) users.old in_tree.old }
    ensures { let passed = path_nodes (decode (slice from until log.now)) in
        let marks = in_tree.old in
        UsersAdded (length marks) passed users.old marks users.new in_tree.new }
{
    let mut at = from;
    // No `for`: a record's length stands in the record.
    while at < until {
        let end = at + 6 + log[at + 5] as usize;
        add_path(log, at + 6, end, users, in_tree);
        at = end;
    }
}
