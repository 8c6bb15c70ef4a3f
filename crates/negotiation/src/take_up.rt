// A log is followed net by net and iteration by iteration, and the lists are those that its run left: to take it up, or to audit it, where
// each turn is held against the search too.
ghost use Rattle.std.specs.Prelude.{◌≡◌, ℕ, ◌+◌, ◌*◌, ◌≤◌, ◌<◌, leb, length, drop};
ghost use Rattle.price.specs.Test.{both};
ghost use Rattle.job.specs.Job.{nodes};
ghost use Rattle.job.specs.Job.{job_in};
ghost use Rattle.negotiation.specs.Routable.{Routable};
ghost use Rattle.negotiation.specs.Outcome.{first_progress};
ghost use Rattle.job.specs.Steps.{AllBelow, Stored};
ghost use Rattle.negotiation.specs.Kept.{Ready};
ghost use Rattle.negotiation.specs.Resume.{record_path};
ghost use Rattle.negotiation.specs.Steps.{SameFrom};
ghost use Rattle.negotiation.specs.ResumeSteps.{named_cost};
ghost use Rattle.negotiation.specs.TakeSteps.{words_at, told_of, judged_as, tried_as, whole_as};
ghost use Rattle.negotiation.specs.TakeSteps.{TryReady, tried_passes, tried_least};
ghost use Rattle.negotiation.specs.TakeSteps.{SomeNet, NetAnswered, SomeNets, NetsAnswered, LogTaken};

use crate::tariff::Tariff;
use crate::{congestion, due, flood, follow, nets, order, tariff};
use job::JobTables;
use search::{NODES_MOST, Prices};

// What is asked of a log besides that it follows the job: nothing where it is taken up, by an audit that each turn be a cheapest one. An
// audit tells how many nodes were over capacity after the last whole iteration.
#[derive(Clone, Copy, Debug, PartialEq, Eq)]
pub struct Walk {
    pub audit: bool,
    pub over: u32,
}

// How far an audit came: turns and words before the record where it ended, whole iterations, nodes over capacity after the last of them.
#[derive(Clone, Copy, Debug, PartialEq, Eq)]
pub struct Told {
    pub turns: u64,
    pub words: usize,
    pub whole: u32,
    pub over: u32,
}

// Why a log is followed no further.
#[derive(Clone, Copy, Debug, PartialEq, Eq)]
pub enum Stopped {
    // It stops following the job at this word.
    Off(usize),
    // An audit's words end here.
    Ends(Told),
    // The next turn follows at this cost, and the least cost is lower.
    NotCheapest { at: Told, cost: u64, least: u64 },
}

// The word at which a log is turned away.
pub fn words_at(stopped: Stopped) -> usize
    ensures { result ≡ words_at stopped }
{
    match stopped {
        Stopped::Off(word) => word,
        Stopped::Ends(at) => at.words,
        Stopped::NotCheapest { at, .. } => at.words,
    }
}

// An audit's words end here.
fn ends_here(audit: bool, words: usize, len: usize) -> bool
    ensures { result ≡ both audit (leb len words) }
{
    audit && len <= words
}

// How far an audit came, by the tariff there.
fn came_to(t: Tariff, whole: u32, over: u32) -> Told
    ensures { result ≡ told_of t whole over }
{
    Told {
        turns: t.turns,
        words: t.words,
        whole,
        over,
    }
}

// The sinks are goals.
fn set_goals(sinks: &[u16], goals: &mut [u8])
    requires { AllBelow (length goals.old) sinks.now }
    ensures { Stored 1 sinks.now goals.old goals.new }
{
    for &s in sinks {
        goals[s as usize] = 1;
    }
}

// The words of the record at the tariff's place, given none where it doesn't follow, if its cost is a least cost of the turn.
#[tactic(auto, unfolding(crate::specs::TakeSteps::judged_as))]
fn judged(
    log: &[u32],
    t: Tariff,
    over: u32,
    count: Option<usize>,
    least: u64,
) -> Result<usize, Stopped>
    requires begun { 1 ≤ t.iteration }
    requires whole { (count ≡ None → ⊥) → t.words + 6 ≤ length log.now }
    ensures { result ≡ judged_as t over count (named_cost (drop t.words log.now)) least }
{
    let Some(count) = count else {
        return Err(Stopped::Off(t.words));
    };
    let cost = follow::named_cost(log, t.words);
    if least < cost {
        return Err(Stopped::NotCheapest {
            at: came_to(t, t.iteration - 1, over),
            cost,
            least,
        });
    }
    Ok(count)
}

// The words of the next record of a net, whose sinks stand in table 7 from one place to below another, or why the log stops before it; the
// path of one that follows is marked.
fn follow_tried(
    job: &JobTables,
    from: usize,
    to: usize,
    net: u32,
    tariff: Tariff,
    walk: Walk,
    history: &[u32],
    users: &[u16],
    in_tree: &mut [u8],
    work: &mut [u64],
    log: &[u32],
) -> Result<usize, Stopped>
    requires begun { 1 ≤ tariff.iteration }
    requires ready { TryReady job.now from to tariff history.now users.now in_tree.old work.old log.now }
    ensures value { let ws = drop tariff.words log.now in
        let passes = tried_passes job.now from to tariff net history.now users.now in_tree.old ws in
        let least = tried_least job.now from to tariff walk.audit history.now users.now in_tree.old in
        result ≡ tried_as tariff walk (leb (length log.now) tariff.words) passes ws least }
    ensures stored { let ws = drop tariff.words log.now in
        ((count : ℕ) → result ≡ Ok count → Stored 1 (record_path ws) in_tree.old in_tree.new) }
    ensures same_from { SameFrom (8 * length job.now.block.kind.now) work.old work.new }
{
    if ends_here(walk.audit, tariff.words, log.len()) {
        return Err(Stopped::Ends(came_to(tariff, tariff.iteration - 1, walk.over)));
    }
    let n = job.block.kind.len();
    let mut goals = [0u8; NODES_MOST];
    let tried = order::next_tried(job, from, to, in_tree);
    let sinks = &job.sink[tried.from..tried.to];
    set_goals(sinks, &mut goals[..n]);
    let prices = Prices {
        weighting: tried.weighting,
        delay: job.delay,
        factor: tariff.factor,
        history,
        others: users,
    };
    let least = follow::least_cost(walk.audit, &job.block, &prices, work, in_tree, sinks);
    let count = follow::follow_turn(&job.block, &prices, net, tariff, &goals[..n], in_tree, log);
    judged(log, tariff, walk.over, count, least)
}

// So many turns of a net, at most, until its sinks are joined.
fn follow_net(
    job: &JobTables,
    from: usize,
    to: usize,
    net: u32,
    begun: Tariff,
    turns: usize,
    walk: Walk,
    history: &[u32],
    users: &[u16],
    in_tree: &mut [u8],
    work: &mut [u64],
    log: &[u32],
) -> Result<Tariff, Stopped>
    requires { 0 < turns
        → SomeNet (job_in job.now) from to net turns begun history.now users.now in_tree.old log.now
        × (8 * length job.now.block.kind.now ≤ length work.old) }
    ensures value { turns ≡ 0 → (result ≡ Ok begun) × (in_tree.new ≡ in_tree.old) }
    ensures net_answered { NetAnswered walk (job_in job.now) from to net turns begun history.now users.now in_tree.old log.now
        result in_tree.new }
    ensures same_from { SameFrom (8 * length job.now.block.kind.now) work.old work.new }
{
    if turns == 0 {
        return Ok(begun);
    }
    let mut tariff = begun;
    let mut left = turns;
    let mut place = flood::missing_sink(in_tree, &job.sink[from..to], 0);
    // No `for`: how many turns the net takes is known only when its sinks are joined.
    while place < to - from {
        if left == 0 {
            return Err(Stopped::Off(tariff.words));
        }
        let count = follow_tried(
            job, from, to, net, tariff, walk, history, users, in_tree, work, log,
        )?;
        tariff = tariff::turn_logged(tariff, count, 0);
        left -= 1;
        place = flood::missing_sink(in_tree, &job.sink[from..to], place);
    }
    Ok(tariff)
}

// The nets of an iteration, in order.
fn follow_nets(
    job: &JobTables,
    begun: Tariff,
    walk: Walk,
    history: &[u32],
    users: &mut [u16],
    in_tree: &mut [u8],
    tree_from: &mut [usize],
    tree_to: &mut [usize],
    due: &[u8],
    work: &mut [u64],
    log: &[u32],
) -> Result<Tariff, Stopped>
    requires { SomeNets (job_in job.now) begun history.now users.old in_tree.old tree_from.old tree_to.old due.now log.now
        × (8 * length job.now.block.kind.now ≤ length work.old) }
    ensures same_from { SameFrom (8 * length job.now.block.kind.now) work.old work.new }
    ensures nets_answered { NetsAnswered walk (job_in job.now) begun history.now users.old in_tree.old tree_from.old tree_to.old
        due.now log.now result users.new in_tree.new tree_from.new tree_to.new }
{
    let mut tariff = begun;
    for net in 0..job.source.len() {
        let from = job.first_sink[net] as usize;
        let to = job.first_sink[net + 1] as usize;
        let first = tariff.words;
        let turns = nets::begin_net(job, log, net, due, tree_from, tree_to, users, in_tree);
        tariff = follow_net(
            job, from, to, net as u32, tariff, turns, walk, history, users, in_tree, work, log,
        )?;
        let until = tariff.words;
        nets::end_net(
            log, net, first, until, due, users, in_tree, tree_from, tree_to,
        );
    }
    Ok(tariff)
}

// What a log comes to behind a whole iteration: an audit's words may end there; else a node is overfull, and the limit is not reached.
#[tactic(auto, unfolding(crate::specs::TakeSteps::whole_as))]
fn whole_iteration(
    audit: bool,
    t: Tariff,
    over: u32,
    limit: u32,
    len: usize,
) -> Result<Tariff, Stopped>
    ensures { result ≡ whole_as audit t over limit len }
{
    if ends_here(audit, t.words, len) {
        return Err(Stopped::Ends(came_to(t, t.iteration, over)));
    }
    let settled = over == 0;
    if settled || t.iteration == limit {
        return Err(Stopped::Off(t.words));
    }
    Ok(t)
}

// The iterations, up to the log's end.
pub fn take_up(
    job: &JobTables,
    audit: bool,
    begun: Tariff,
    history: &mut [u32],
    users: &mut [u16],
    in_tree: &mut [u8],
    tree_from: &mut [usize],
    tree_to: &mut [usize],
    due: &mut [u8],
    work: &mut [u64],
    log: &[u32],
) -> Result<Tariff, Stopped>
    requires { let asked = job_in job.now in
        Routable asked × (8 * nodes asked ≤ length work.old)
        × Ready asked (first_progress asked) begun history.old users.old in_tree.old tree_from.old tree_to.old due.old
        log.now }
    ensures taken { let asked = job_in job.now in
        LogTaken audit result asked history.new users.new in_tree.new tree_from.new
        tree_to.new due.new log.now }
    ensures same_from { SameFrom (8 * length job.now.block.kind.now) work.old work.new }
{
    let mut tariff = begun;
    let mut over = 0u32;
    loop {
        due::mark_due(job, tariff, log, tree_from, tree_to, users, due);
        let walk = Walk { audit, over };
        let t = follow_nets(
            job, tariff, walk, history, users, in_tree, tree_from, tree_to, due, work, log,
        )?;
        over = congestion::over_count(job.block.capacity, users);
        let next = whole_iteration(audit, t, over, job.terms.limit, log.len())?;
        congestion::grow_histories(job.terms.tuning, job.block.capacity, users, history);
        tariff = tariff::iteration_started(tariff::iteration_ended(next, job.terms.tuning));
        if log.len() <= tariff.words {
            return Ok(tariff);
        }
    }
}
