// How many nets' final trees have each node of a sound log.
ghost use Rattle.std.specs.Prelude.{◌≡◌, ℕ, ◌≤◌, ◌<◌, length, get_or};
ghost use Rattle.price.specs.Bounds.{nodes_most};
ghost use Rattle.price.specs.Lists.{up_to};
ghost use Rattle.negotiation.specs.Records.{decode, path_nodes};
ghost use Rattle.job.specs.Steps.{AllBelow};
ghost use Rattle.job.specs.Tables.{nets_most};
ghost use Rattle.text.specs.Users.{below_nodes, nets_with, users_reply, users_reply_of};
ghost use Rattle.text.specs.UserSteps.{Counted, FewUsers};
ghost use Rattle.text.specs.WriteSteps.{AllSound, own_records, LatestPlaces};

use crate::latest::Latest;
use crate::log_check::{SoundLog, UnsoundLog};
use crate::{latest, log_check};
use job::NETS_MOST;
use search::NODES_MOST;

// Counts each node of a path that doesn't bear the stamp, and stamps it.
fn count_path(path: &[u32], stamp: u16, users: &mut [u16], stamps: &mut [u16])
    requires as_long { length users.old ≡ length stamps.old }
    requires all_below { AllBelow (length users.old) path.now × FewUsers stamp users.old stamps.old }
    ensures { Counted stamp path.now users.old stamps.old users.new stamps.new }
{
    for node in path {
        let v = *node as usize;
        if stamps[v] != stamp {
            users[v] += 1;
        }
        stamps[v] = stamp;
    }
}

// Counts the nodes of a net's records in a sound log, each once.
fn count_records(log: &[u32], net: u32, stamp: u16, users: &mut [u16], stamps: &mut [u16])
    requires all_sound { AllSound log.now × (length users.old ≡ nodes_most) × (length stamps.old ≡ nodes_most) }
    requires few_users { FewUsers stamp users.old stamps.old }
    ensures { Counted stamp (path_nodes (own_records net (decode log.now))) users.old stamps.old
        users.new stamps.new }
{
    let mut at = 0;
    // A record's length stands in it: the next place is known only at the record.
    while at < log.len() {
        let record = log_check::record_at(log, at);
        if record.net == net {
            count_path(record.path, stamp, users, stamps);
        }
        at = record.end;
    }
}

// Counts every net's latest records.
fn count_nets(log: &[u32], latest: &Latest, users: &mut [u16], stamps: &mut [u16])
    requires latest_places { LatestPlaces log.now latest.now.from latest.now.to }
    requires users_len { (length users.old ≡ nodes_most) × (length stamps.old ≡ nodes_most)
        × ((v : ℕ) → (get_or users.old v 0 ≡ 0) × (get_or stamps.old v 0 ≡ 0)) }
    ensures { (length users.new ≡ nodes_most)
        × ((v : ℕ) → get_or users.new v 0 ≡ nets_with (decode log.now) v) }
{
    for net in 0..NETS_MOST {
        count_records(
            latest.of(log, net),
            net as u32,
            net as u16 + 1,
            users,
            stamps,
        );
    }
}

// Counts the users of every node of a sound log, whatever the list held before.
fn count_users(log: &[u32], users: &mut [u16; NODES_MOST])
    requires { AllSound log.now }
    ensures { users.new ≡ up_to (nets_with (decode log.now)) nodes_most }
{
    let latest = latest::latest_records(log);
    let mut stamps = [0u16; NODES_MOST];
    *users = [0u16; NODES_MOST];
    count_nets(log, &latest, users, &mut stamps);
}

// How many nets' final trees have each node, of a log whose records name nets below 512 and nodes below this bound and 4,096.
// Of an unsound log nothing is counted.
pub fn node_users(
    nodes: usize,
    log: &[u32],
    users: &mut [u16; NODES_MOST],
) -> Result<SoundLog, UnsoundLog>
    ensures answers { users_reply_of result users.new
        ≡ users_reply (below_nodes nodes) log.now users.old }
{
    let found = log_check::check_log(&[true; NETS_MOST], nodes.min(NODES_MOST), log)?;
    count_users(log, users);
    Ok(found)
}
