// Whether a log is sound.
ghost use Rattle.std.specs.Prelude.{◌≡◌, ◌≤◌, ltb, length};
ghost use Rattle.std.specs.List.{list_all};
ghost use Rattle.text.specs.Routes.{path_sound, record_sound};
ghost use Rattle.text.specs.Users.{log_checked, checked_at};
ghost use Rattle.text.specs.WriteSteps.{RecordAt, next_at, net_marked, named_by};

use crate::bounds;
use search::NODES_MOST;

// What a sound log has: its last record's iteration, and how many records there are.
#[derive(Clone, Copy, Debug, PartialEq, Eq)]
pub struct SoundLog {
    pub iteration: u32,
    pub turns: usize,
}

// A log whose first unsound record begins at this word.
#[derive(Clone, Copy, Debug, PartialEq, Eq)]
pub struct UnsoundLog {
    pub word: usize,
}

// Every word is the number of a node, below this bound.
fn nodes_below(nodes: usize, path: &[u32]) -> bool
    ensures { result ≡ list_all (λ v. ltb v nodes) path.now }
{
    path.iter().all(|v| (*v as usize) < nodes)
}

// The path of the record that begins these words, n of them, is whole and sound: nodes below the bound, the last of them the sink.
fn path_sound(nodes: usize, words: &[u32], n: usize, sink: u32) -> bool
    ensures { result ≡ path_sound nodes n sink words.now }
{
    (2..=NODES_MOST).contains(&n)
        && 6 + n <= words.len()
        && nodes_below(nodes, &words[6..6 + n])
        && words[5 + n] == sink
}

// The net is marked.
#[tactic(auto, using(crate::proofs::RecordTestLaws::marked_none), unfolding(crate::specs::WriteSteps::net_marked))]
fn net_marked(marks: &[bool], net: u32) -> bool
    ensures { result ≡ net_marked marks.now net }
{
    (net as usize) < marks.len() && marks[net as usize]
}

// The record that begins these words is whole and sound, after one of this iteration, its net is marked and its nodes are below the
// bound.
#[tactic(auto, unfolding(crate::specs::Routes::record_sound))]
fn record_sound(marks: &[bool], nodes: usize, words: &[u32], last: u32) -> bool
    ensures { result ≡ record_sound (named_by marks.now nodes) last words.now }
{
    6 <= words.len()
        && (1..=bounds::LIMIT_MOST).contains(&words[0])
        && last <= words[0]
        && net_marked(marks, words[1])
        && path_sound(nodes, words, words[5] as usize, words[2])
}

// A record of a log: its iteration, its net, its path, and the place after it.
#[derive(Clone, Copy)]
pub struct Record<'a> {
    pub iteration: u32,
    pub net: u32,
    pub path: &'a [u32],
    pub end: usize,
}

// The record at a place, which the log has whole.
pub fn record_at(log: &[u32], at: usize) -> Record<'_>
    requires { next_at log.now at ≤ length log.now }
    ensures { RecordAt log.now at result.iteration result.net result.path.now result.end }
{
    let end = at + 6 + log[at + 5] as usize;
    Record {
        iteration: log[at],
        net: log[at + 1],
        path: &log[at + 6..end],
        end,
    }
}

// Goes from record to record, each of which is of a marked net and of nodes below the bound.
pub fn check_log(marks: &[bool], nodes: usize, log: &[u32]) -> Result<SoundLog, UnsoundLog>
    ensures { checked_at result ≡ log_checked (named_by marks.now nodes) log.now }
{
    let mut at = 0;
    let mut iteration = 0;
    let mut turns = 0;
    // A record's length stands in it: the next place is known only at the record.
    while at < log.len() {
        if !record_sound(marks, nodes, &log[at..], iteration) {
            return Err(UnsoundLog { word: at });
        }
        let record = record_at(log, at);
        iteration = record.iteration;
        at = record.end;
        turns += 1;
    }
    if turns == 0 {
        return Err(UnsoundLog { word: 0 });
    }
    Ok(SoundLog { iteration, turns })
}
