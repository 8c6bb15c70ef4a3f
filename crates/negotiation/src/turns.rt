// The negotiation itself: sinks within nets within iterations.
// A run's six lists (history, users, in_tree, tree_from, tree_to, due) stay loose `&mut`s here, in take_up.rt, audit_log.rt and nets.rt:
// what a function changes is read from its `&mut`, and with a struct of them each contract would need a clause for each list that stays.
ghost use Rattle.std.specs.Prelude.{Bool, true, ◌++◌, ◌≡◌, ℕ, ◌+◌, ◌*◌, ◌≤◌, ◌<◌, length, get_or, drop, replicate};
ghost use Rattle.std.proofs.Math.Seq.{slice};
ghost use Rattle.price.specs.Bounds.{limit_most};
ghost use Rattle.price.specs.Prices.{next_factor};
ghost use Rattle.search.specs.Block.{block_in};
ghost use Rattle.search.specs.Turn.{congestion_in};
ghost use Rattle.search.specs.Distance.{tree_has};
ghost use Rattle.search.specs.Turn.{weighed_congestion, price_at, turn};
ghost use Rattle.job.specs.Job.{nodes, nets};
ghost use Rattle.job.specs.Job.{job_in};
ghost use Rattle.negotiation.specs.Routable.{Routable};
ghost use Rattle.negotiation.specs.Machine.{Progress};
ghost use Rattle.negotiation.specs.Order.{sinks_tried, weighting_due};
ghost use Rattle.negotiation.specs.OrderSteps.{SinksReady};
ghost use Rattle.search.specs.Replies.{sink_list_sound};
ghost use Rattle.negotiation.specs.Outcome.{unreachable_net, first_progress, continued, route_reply_of, turns_logged};
ghost use Rattle.negotiation.specs.Aimed.{expanded_after};
ghost use Rattle.negotiation.specs.Runs.{Ran};
ghost use Rattle.negotiation.specs.Steps.{SameFrom, TurnReady, PathFound, turn_count, TurnDone, CanTurn, BackLent};
ghost use Rattle.negotiation.specs.BackSteps.{Fitting};
ghost use Rattle.negotiation.specs.Kept.{Ready, SomeReady};
ghost use Rattle.negotiation.specs.Resume.{run_from, lent_records};
ghost use Rattle.negotiation.specs.TakeSteps.{Started};

use crate::take_up::Stopped;
use crate::tariff::Tariff;
use crate::{
    Outcome, RouteAnswer, back, congestion, due, nets, order, records, refused, take_up, tariff,
    trees,
};
use job::{JobTables, NETS_MOST};
use price::Tuning;
use search::{AimedTurn, Back, EDGES_MOST, FIRST_EDGES_MOST, NODES_MOST, Prices, Tables};

// The next turn's record does not fit the log.
#[derive(Clone, Copy, Debug, PartialEq, Eq)]
pub struct NoRoom;

// The tariff at the next iteration's start.
fn next_iteration(t: Tariff, g: Tuning) -> Tariff
    requires { t.iteration < limit_most }
    ensures { (result.iteration ≡ t.iteration + 1) × (result.factor ≡ next_factor g t.iteration t.factor)
        × (result.turns ≡ t.turns) × (result.words ≡ t.words) × (result.aimed ≡ t.aimed) × (result.expanded ≡ t.expanded) }
{
    tariff::iteration_started(tariff::iteration_ended(t, g))
}

// The answer at the end of a run.
fn answer(outcome: Outcome, t: Tariff) -> RouteAnswer
    ensures { (result.outcome ≡ outcome) × (result.iteration ≡ t.iteration) × (result.turns ≡ t.turns) × (result.used ≡ t.words)
        × (result.expanded ≡ t.expanded) }
{
    RouteAnswer {
        outcome,
        iteration: t.iteration,
        turns: t.turns,
        used: t.words as u64,
        expanded: t.expanded,
    }
}

// Entries of the work slice below `to` hold 0.
pub fn clear(work: &mut [u64], to: usize)
    requires { to ≤ length work.old }
    ensures { work.new ≡ replicate to 0 ++ drop to work.old }
{
    work[..to].fill(0);
}

// The cheapest path of a turn, by the search that is chosen, and how many nodes it expanded: none are counted with the plain one.
fn found_path(
    aimed: bool,
    tables: &Tables,
    back: &Back,
    prices: &Prices,
    work: &mut [u64],
    in_tree: &[u8],
    sinks: &[u16],
) -> AimedTurn
    requires ready { let nodes = length tables.now.kind.now in
        TurnReady (block_in tables.now) (congestion_in prices.now) in_tree.now work.old × (sink_list_sound nodes sinks.now ≡ true) }
    requires back_lent { BackLent aimed (block_in tables.now) back.now }
    ensures { let block = block_in tables.now in
        let congestion = congestion_in prices.now in
        let marks = in_tree.now in
        let made = turn block (price_at block congestion) marks sinks.now in
        PathFound (length tables.now.kind.now) made work.old result.joins work.new
        × (result.expanded ≡ turn_count aimed block congestion marks sinks.now) }
{
    let none = AimedTurn {
        joins: None,
        expanded: 0,
    };
    // Tables and numbers keep their rules: neither search refuses.
    if aimed {
        return match search::aimed_path(tables, back, prices, work, in_tree, sinks) {
            Ok(turn) => turn,
            Err(_) => none,
        };
    }
    match search::cheapest_path(tables, prices, work, in_tree, sinks) {
        Ok(joins) => AimedTurn { joins, expanded: 0 },
        Err(_) => none,
    }
}

// One turn of a net for these sinks: its record is written where it fits, and its path joins the tree. The answer is the tariff after the
// turn, none where no sink is left to be joined. Without sinks nothing is searched.
// Nine parameters: what is read of the job is in three structs already, and the three slices that it changes stay loose.
fn one_turn(
    tables: &Tables,
    back: &Back,
    prices: &Prices,
    sinks: &[u16],
    net: u32,
    tariff: Tariff,
    work: &mut [u64],
    log: &mut [u32],
    in_tree: &mut [u8],
) -> Result<Option<Tariff>, NoRoom>
    requires ready { CanTurn (block_in tables.now) (congestion_in prices.now) tariff sinks.now in_tree.old work.old log.old }
    requires back_lent { BackLent tariff.aimed (block_in tables.now) back.now }
    ensures answers { let block = block_in tables.now in
        let congestion = congestion_in prices.now in
        let marks = in_tree.old in
        let made = turn block (price_at block congestion) marks sinks.now in
        let count = turn_count tariff.aimed block congestion marks sinks.now in
        TurnDone result made count tariff net sinks.now log.old marks log.new in_tree.new }
    ensures same_from { SameFrom (8 * length tables.now.kind.now) work.old work.new }
{
    if sinks.is_empty() {
        return Ok(None);
    }
    let found = found_path(tariff.aimed, tables, back, prices, work, in_tree, sinks);
    let Some(joins) = found.joins else {
        return Ok(None);
    };
    let count = joins.length as usize;
    let at = tariff.words;
    if log.len() - at < 6 + count {
        return Err(NoRoom);
    }
    let sink = sinks[joins.place as usize] as u32;
    records::write_record(
        log,
        at,
        tariff.iteration,
        net,
        sink,
        joins.cost,
        work,
        count,
    );
    trees::mark_path(work, count, in_tree);
    let logged = tariff::turn_logged(tariff, 6 + count, found.expanded as u64);
    Ok(Some(logged))
}

// The next turn of a net, whose sinks stand in table 7 from one place to below another: for all of them, in a timed job for the one whose
// turn it is.
fn net_turn(
    job: &JobTables,
    back: &Back,
    from: usize,
    to: usize,
    net: u32,
    tariff: Tariff,
    work: &mut [u64],
    log: &mut [u32],
    history: &[u32],
    users: &[u16],
    in_tree: &mut [u8],
) -> Result<Option<Tariff>, NoRoom>
    requires sinks_ready { let j = job.now in SinksReady j.terms.timed j.sink.now j.criticality.now from to in_tree.old }
    requires ready { let j = job.now in
        let sinks = slice from to j.sink.now in
        let criticalities = slice from to j.criticality.now in
        let joined : (ℕ → Bool) = tree_has in_tree.old in
        let weighting = weighting_due j.terms.timed joined sinks criticalities in
        let congestion = weighed_congestion weighting j.delay.now tariff.factor history.now users.now in
        CanTurn (block_in j.block) congestion tariff (sinks_tried j.terms.timed joined sinks criticalities) in_tree.old work.old
        log.old }
    requires back_lent { BackLent tariff.aimed (block_in job.now.block) back.now }
    ensures answers { let j = job.now in
        let block = block_in j.block in
        let sinks = slice from to j.sink.now in
        let criticalities = slice from to j.criticality.now in
        let marks = in_tree.old in
        let joined : (ℕ → Bool) = tree_has marks in
        let weighting = weighting_due j.terms.timed joined sinks criticalities in
        let congestion = weighed_congestion weighting j.delay.now tariff.factor history.now users.now in
        let tried = sinks_tried j.terms.timed joined sinks criticalities in
        let made = turn block (price_at block congestion) marks tried in
        let count = turn_count tariff.aimed block congestion marks tried in
        TurnDone result made count tariff net tried log.old marks log.new in_tree.new }
    ensures same_from { SameFrom (8 * length job.now.block.kind.now) work.old work.new }
{
    let tried = order::next_tried(job, from, to, in_tree);
    let prices = Prices {
        weighting: tried.weighting,
        delay: job.delay,
        factor: tariff.factor,
        history,
        others: users,
    };
    one_turn(
        &job.block,
        back,
        &prices,
        &job.sink[tried.from..tried.to],
        net,
        tariff,
        work,
        log,
        in_tree,
    )
}

// The iterations of a run that goes on from where its lists stand: in each every net that is due, in order, drops its old tree and makes
// turns until its sinks are joined. Routing stops inside a net at the first turn whose record does not fit.
fn go_on(
    job: &JobTables,
    back: &Back,
    begun: Tariff,
    history: &mut [u32],
    users: &mut [u16],
    in_tree: &mut [u8],
    tree_from: &mut [usize],
    tree_to: &mut [usize],
    due: &mut [u8],
    work: &mut [u64],
    log: &mut [u32],
) -> RouteAnswer
    requires ready { let asked = job_in job.now in
        (Routable asked × (nets asked ≤ unreachable_net asked) × (8 * nodes asked ≤ length work.old))
        × SomeReady asked begun history.old users.old in_tree.old tree_from.old tree_to.old due.old log.old }
    requires back_lent { BackLent begun.aimed (block_in job.now.block) back.now }
    ensures answers { let asked = job_in job.now in
        ((p : Progress)
        → Ready asked p begun history.old users.old in_tree.old tree_from.old
        tree_to.old due.old log.old
        → route_reply_of result work.new log.new ≡ continued asked p work.old log.old) }
    ensures expanded { let asked = job_in job.now in
        let made = turns_logged (route_reply_of result work.new log.new) in
        ((p : Progress) (m : ℕ)
        → Ready asked p begun history.old users.old in_tree.old tree_from.old
        tree_to.old due.old log.old
        → Ran asked m p.records p.state → result.expanded ≡ expanded_after begun.aimed asked p.records made) }
{
    let n = job.block.kind.len();
    let mut tariff = begun;
    'iterations: loop {
        due::mark_due(job, tariff, log, tree_from, tree_to, users, due);
        for net in 0..job.source.len() {
            let from = job.first_sink[net] as usize;
            let to = job.first_sink[net + 1] as usize;
            let first = tariff.words;
            let most = nets::begin_net(job, log, net, due, tree_from, tree_to, users, in_tree);
            for _ in 0..most {
                let Ok(made) = net_turn(
                    job, back, from, to, net as u32, tariff, work, log, history, users, in_tree,
                ) else {
                    break 'iterations;
                };
                tariff = made.unwrap_or(tariff);
            }
            let until = tariff.words;
            nets::end_net(
                log, net, first, until, due, users, in_tree, tree_from, tree_to,
            );
        }
        let over = congestion::over_count(job.block.capacity, users);
        let settled = over == 0;
        if settled {
            clear(work, 8 * n);
            return answer(Outcome::Accepted, tariff);
        }
        if tariff.iteration == job.terms.limit {
            clear(work, 8 * n);
            return answer(Outcome::Limit(over), tariff);
        }
        congestion::grow_histories(job.terms.tuning, job.block.capacity, users, history);
        tariff = next_iteration(tariff, job.terms.tuning);
    }
    clear(work, 8 * n);
    answer(Outcome::LogFull, tariff)
}

// Where a run starts: as it is begun, or after the words of a lent log, which is taken up.
fn start_at(
    job: &JobTables,
    start: Option<usize>,
    begun: Tariff,
    history: &mut [u32],
    users: &mut [u16],
    in_tree: &mut [u8],
    tree_from: &mut [usize],
    tree_to: &mut [usize],
    due: &mut [u8],
    work: &mut [u64],
    log: &[u32],
) -> Result<Tariff, Stopped>
    requires { let asked = job_in job.now in
        Routable asked × (8 * nodes asked ≤ length work.old)
        × Ready asked (first_progress asked) begun history.old users.old in_tree.old tree_from.old tree_to.old due.old
        log.now }
    ensures started { let asked = job_in job.now in
        Started result start asked history.new users.new in_tree.new tree_from.new
        tree_to.new due.new log.now }
    ensures same_from { SameFrom (8 * length job.now.block.kind.now) work.old work.new }
{
    match start {
        None => Ok(begun),
        Some(used) => {
            if log.len() < used {
                return Err(Stopped::Off(log.len()));
            }
            take_up::take_up(
                job,
                false,
                begun,
                history,
                users,
                in_tree,
                tree_from,
                tree_to,
                due,
                work,
                &log[..used],
            )
        }
    }
}

// The run that starts so: its iterations, or nothing but refusal 14.
fn run_from(
    job: &JobTables,
    back: &Back,
    start: Option<usize>,
    begun: Tariff,
    history: &mut [u32],
    users: &mut [u16],
    in_tree: &mut [u8],
    tree_from: &mut [usize],
    tree_to: &mut [usize],
    due: &mut [u8],
    work: &mut [u64],
    log: &mut [u32],
) -> RouteAnswer
    requires ready { let asked = job_in job.now in
        (Routable asked × (nets asked ≤ unreachable_net asked) × (8 * nodes asked ≤ length work.old))
        × Ready asked (first_progress asked) begun history.old users.old in_tree.old tree_from.old tree_to.old due.old
        log.old }
    requires back_lent { BackLent begun.aimed (block_in job.now.block) back.now }
    ensures answers { let asked = job_in job.now in
        route_reply_of result work.new log.new ≡ run_from start asked work.old log.old }
    ensures expanded { let asked = job_in job.now in
        let made = turns_logged (route_reply_of result work.new log.new) in
        result.expanded ≡ expanded_after begun.aimed asked (lent_records start log.old) made }
{
    let tariff = match start_at(
        job, start, begun, history, users, in_tree, tree_from, tree_to, due, work, log,
    ) {
        Ok(tariff) => tariff,
        Err(stopped) => {
            clear(work, 8 * job.block.kind.len());
            return refused(Outcome::Diverges(take_up::words_at(stopped) as u64));
        }
    };
    go_on(
        job,
        back,
        tariff::going_on(tariff, begun.aimed),
        history,
        users,
        in_tree,
        tree_from,
        tree_to,
        due,
        work,
        log,
    )
}

// The run with the search that aims, in lists for the edges by their target, of which the first holds 0.
fn run_listed(
    job: &JobTables,
    first_back: &mut [u32],
    back_source: &mut [u16],
    start: Option<usize>,
    begun: Tariff,
    history: &mut [u32],
    users: &mut [u16],
    in_tree: &mut [u8],
    tree_from: &mut [usize],
    tree_to: &mut [usize],
    due: &mut [u8],
    work: &mut [u64],
    log: &mut [u32],
) -> RouteAnswer
    requires ready { let asked = job_in job.now in
        (Routable asked × (nets asked ≤ unreachable_net asked) × (8 * nodes asked ≤ length work.old))
        × Ready asked (first_progress asked) begun history.old users.old in_tree.old tree_from.old tree_to.old due.old
        log.old }
    requires fitting { Fitting job.now.block.first_edge.now job.now.block.edge_target.now first_back.old back_source.old
        × ((v : ℕ) → v < length first_back.old → get_or first_back.old v 0 ≡ 0) }
    ensures answers { let asked = job_in job.now in
        route_reply_of result work.new log.new ≡ run_from start asked work.old log.old }
    ensures expanded { let asked = job_in job.now in
        let made = turns_logged (route_reply_of result work.new log.new) in
        result.expanded ≡ expanded_after begun.aimed asked (lent_records start log.old) made }
{
    back::list_by_target(&job.block, first_back, back_source);
    let back = Back {
        first_back,
        back_source,
    };
    run_from(
        job, &back, start, begun, history, users, in_tree, tree_from, tree_to, due, work, log,
    )
}

// The same with lists of its own: a function apart, since a run with the plain search doesn't need them.
fn run_aimed(
    job: &JobTables,
    start: Option<usize>,
    begun: Tariff,
    history: &mut [u32],
    users: &mut [u16],
    in_tree: &mut [u8],
    tree_from: &mut [usize],
    tree_to: &mut [usize],
    due: &mut [u8],
    work: &mut [u64],
    log: &mut [u32],
) -> RouteAnswer
    requires { let asked = job_in job.now in
        (Routable asked × (nets asked ≤ unreachable_net asked) × (8 * nodes asked ≤ length work.old))
        × Ready asked (first_progress asked) begun history.old users.old in_tree.old tree_from.old tree_to.old due.old
        log.old }
    ensures answers { let asked = job_in job.now in
        route_reply_of result work.new log.new ≡ run_from start asked work.old log.old }
    ensures expanded { let asked = job_in job.now in
        let made = turns_logged (route_reply_of result work.new log.new) in
        result.expanded ≡ expanded_after begun.aimed asked (lent_records start log.old) made }
{
    let n = job.block.kind.len();
    let edges = job.block.edge_target.len();
    let mut first_back = [0u32; FIRST_EDGES_MOST];
    let mut back_source = [0u16; EDGES_MOST];
    run_listed(
        job,
        &mut first_back[..n + 1],
        &mut back_source[..edges],
        start,
        begun,
        history,
        users,
        in_tree,
        tree_from,
        tree_to,
        due,
        work,
        log,
    )
}

// The run with the search that is chosen. The plain one needs no edges by their target.
fn run_chosen(
    job: &JobTables,
    start: Option<usize>,
    begun: Tariff,
    history: &mut [u32],
    users: &mut [u16],
    in_tree: &mut [u8],
    tree_from: &mut [usize],
    tree_to: &mut [usize],
    due: &mut [u8],
    work: &mut [u64],
    log: &mut [u32],
) -> RouteAnswer
    requires { let asked = job_in job.now in
        (Routable asked × (nets asked ≤ unreachable_net asked) × (8 * nodes asked ≤ length work.old))
        × Ready asked (first_progress asked) begun history.old users.old in_tree.old tree_from.old tree_to.old due.old
        log.old }
    ensures answers { let asked = job_in job.now in
        route_reply_of result work.new log.new ≡ run_from start asked work.old log.old }
    ensures expanded { let asked = job_in job.now in
        let made = turns_logged (route_reply_of result work.new log.new) in
        result.expanded ≡ expanded_after begun.aimed asked (lent_records start log.old) made }
{
    if begun.aimed {
        return run_aimed(
            job, start, begun, history, users, in_tree, tree_from, tree_to, due, work, log,
        );
    }
    let none = Back {
        first_back: &[],
        back_source: &[],
    };
    run_from(
        job, &none, start, begun, history, users, in_tree, tree_from, tree_to, due, work, log,
    )
}

// The negotiation: the lists and the tariff of a run that begins, and the run from its start.
pub fn negotiate(
    job: &JobTables,
    start: Option<usize>,
    aimed: bool,
    work: &mut [u64],
    log: &mut [u32],
) -> RouteAnswer
    requires { let asked = job_in job.now in
        Routable asked × (nets asked ≤ unreachable_net asked) × (8 * nodes asked ≤ length work.old) }
    ensures answers { let asked = job_in job.now in
        route_reply_of result work.new log.new ≡ run_from start asked work.old log.old }
    ensures expanded { let asked = job_in job.now in
        let made = turns_logged (route_reply_of result work.new log.new) in
        result.expanded ≡ expanded_after aimed asked (lent_records start log.old) made }
{
    let n = job.block.kind.len();
    let nets = job.source.len();
    let mut history = [1u32; NODES_MOST];
    let mut users = [0u16; NODES_MOST];
    let mut in_tree = [0u8; NODES_MOST];
    let mut tree_from = [0usize; NETS_MOST];
    let mut tree_to = [0usize; NETS_MOST];
    let mut due = [0u8; NETS_MOST];
    let begun = Tariff {
        iteration: 1,
        factor: 0,
        turns: 0,
        words: 0,
        aimed,
        expanded: 0,
    };
    run_chosen(
        job,
        start,
        begun,
        &mut history[..n],
        &mut users[..n],
        &mut in_tree[..n],
        &mut tree_from[..nets],
        &mut tree_to[..nets],
        &mut due[..nets],
        work,
        log,
    )
}
