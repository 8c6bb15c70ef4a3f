// The negotiation: routes a job given as tables, and logs every turn.
#![tactic(auto)]

ghost use Rattle.std.specs.Prelude.{[], ◌≡◌, ◌*◌, ◌≤◌, length, take};
ghost use Rattle.job.specs.Job.{nodes};
ghost use Rattle.job.specs.Job.{job_in};
ghost use Rattle.negotiation.specs.Routable.{Routable};
ghost use Rattle.negotiation.specs.Records.{decode};
ghost use Rattle.negotiation.specs.Outcome.{refused_answer, route_reply_of, turns_logged, reached_reply, tested};
ghost use Rattle.negotiation.specs.Aimed.{expanded_after};
ghost use Rattle.negotiation.specs.Demand.{Demand3};
ghost use Rattle.job.specs.Join.{joined};
ghost use Rattle.negotiation.specs.Resume.{run_from, lent_records};
ghost use Rattle.negotiation.specs.Resumed.{Resumed};
ghost use Rattle.negotiation.specs.AuditSteps.{job_refusal};
ghost use Rattle.negotiation.specs.Audit.{audit_reply_of};
ghost use Rattle.negotiation.specs.Audited.{Audited};

// How a run or an audit ends.
#[derive(Clone, Copy, Debug, PartialEq, Eq)]
pub enum Outcome {
    // Nothing is over capacity; of an audit: the log is sound.
    Accepted,
    // 7: the first net and the place of its first sink without a path from its source.
    Unreachable { net: u32, place: u32 },
    // 8: the next record does not fit.
    LogFull,
    // 9: the limit is reached, with so many nodes over capacity.
    Limit(u32),
    // 5: this table breaks its rule.
    BadTable(u32),
    // 6: the work slice is shorter than this many entries.
    ShortWork(u64),
    // 14: a lent log does not follow the job: the word place of the first record that doesn't, the words used, or the log's length.
    Diverges(u64),
    // 15: a timed job has too many nodes or too high a limit.
    TooLarge { nodes: u32, limit: u32 },
    // 18, of an audit alone and no refusal: the record at this word costs more than the least that its turn could.
    NotCheapest { word: u64, cost: u64, least: u64 },
}

// The answer: how the run ended, beside iteration, turns made and words used; and how many nodes the search that aims expanded in the turns
// that the call logged, 0 with the plain one.
#[derive(Clone, Copy, Debug, PartialEq, Eq)]
pub struct RouteAnswer {
    pub outcome: Outcome,
    pub iteration: u32,
    pub turns: u64,
    pub used: u64,
    pub expanded: u64,
}

// The answer of an audit: its outcome, beside the turns before the one that it names, of a sound log all; the iterations that are whole;
// and the nodes over capacity after the last of them. After a refusal all three are 0.
#[derive(Clone, Copy, Debug, PartialEq, Eq)]
pub struct AuditAnswer {
    pub outcome: Outcome,
    pub turns: u64,
    pub whole: u32,
    pub over: u32,
}

mod audit_log;
mod back;
mod congestion;
mod due;
mod flood;
mod follow;
mod join;
mod nets;
mod order;
mod reach;
mod records;
mod refusals;
mod take_up;
mod tariff;
mod trees;
mod turns;

use job::{BadTable, FIRST_SINKS_MOST, JobTables};
use reach::Missing;
pub use refusals::refusal;
use search::SINKS_MOST;

impl From<BadTable> for Outcome {
    ghost use Rattle.negotiation.specs.declared.Outcome.TheVariants as o;

    ghost from_gives = { λ bad outcome. outcome ≡ o.BadTable bad.table };

    fn from(bad: BadTable) -> Outcome {
        Outcome::BadTable(bad.table)
    }
}

// The answer of a call that is refused before any turn.
fn refused(outcome: Outcome) -> RouteAnswer
    ensures { result ≡ refused_answer outcome }
{
    RouteAnswer {
        outcome,
        iteration: 0,
        turns: 0,
        used: 0,
        expanded: 0,
    }
}

// Routes a job of joined nets, from iteration 1 or after so many words of a lent log: refusal 7, then the negotiation.
fn route_joined(
    job: &JobTables,
    start: Option<usize>,
    aimed: bool,
    work: &mut [u64],
    log: &mut [u32],
) -> RouteAnswer
    requires { let asked = job_in job.now in
        Routable asked × (8 * nodes asked ≤ length work.old) }
    ensures answers { let asked = job_in job.now in
        let run = run_from start asked work.old log.old in
        route_reply_of result work.new log.new ≡ reached_reply asked work.old log.old run }
    ensures expanded { let asked = job_in job.now in
        let made = turns_logged (route_reply_of result work.new log.new) in
        result.expanded ≡ expanded_after aimed asked (lent_records start log.old) made }
{
    match reach::unreachable(job, work) {
        Some(Missing { net, place }) => {
            turns::clear(work, 8 * job.block.kind.len());
            refused(Outcome::Unreachable { net, place })
        }
        None => turns::negotiate(job, start, aimed, work, log),
    }
}

// The refusal of a job given as tables with so many entries of work memory, if any: 5, 15 or 6.
fn refusal_of(job: &JobTables, entries: usize) -> Result<(), Outcome>
    ensures { let asked = job_in job.now in
        result ≡ job_refusal asked entries }
{
    job::faulty_job(job)?;
    let n = job.block.kind.len();
    if job::exceeds(n, job.terms) {
        return Err(Outcome::TooLarge {
            nodes: n as u32,
            limit: job.terms.limit,
        });
    }
    let needed = 8 * n;
    if entries < needed {
        return Err(Outcome::ShortWork(needed as u64));
    }
    Ok(())
}

// Routes a job given as tables, from iteration 1 or after so many words of a lent log: refusals 5, 15 and 6; then nets of one source are
// joined, and the joined nets are routed.
fn routed_from(
    job: &JobTables,
    start: Option<usize>,
    aimed: bool,
    work: &mut [u64],
    log: &mut [u32],
) -> RouteAnswer
    ensures answers { let asked = job_in job.now in
        let run = run_from start (joined asked) work.old log.old in
        route_reply_of result work.new log.new ≡ tested asked work.old log.old run }
    ensures expanded { let asked = job_in job.now in
        let made = turns_logged (route_reply_of result work.new log.new) in
        result.expanded ≡ expanded_after aimed (joined asked) (lent_records start log.old) made }
{
    if let Err(outcome) = refusal_of(job, work.len()) {
        return refused(outcome);
    }
    let mut firsts = [0u32; FIRST_SINKS_MOST];
    let mut sinks = [0u16; SINKS_MOST];
    let mut criticalities = [0u8; SINKS_MOST];
    let ends = job.source.len() + 1;
    let count = join::joined_tables(job, &mut firsts, &mut sinks, &mut criticalities);
    let joined = JobTables {
        block: job.block,
        source: job.source,
        first_sink: &firsts[..ends],
        sink: &sinks[..count],
        delay: job.delay,
        criticality: &criticalities[..count],
        terms: job.terms,
    };
    route_joined(&joined, start, aimed, work, log)
}

// Routes a job given as tables, by the search that aims or by the plain one. Demand 3 says all of it, whichever it is: answer, work slice
// and log are those of `route_reply`, and what follows from that. The other clause counts the nodes that the search that aims expanded.
pub fn route(job: &JobTables, aimed: bool, work: &mut [u64], log: &mut [u32]) -> RouteAnswer
    ensures demand { let asked = job_in job.now in
        Demand3 asked work.old log.old (route_reply_of result work.new log.new) }
    ensures expanded { let asked = job_in job.now in
        let made = turns_logged (route_reply_of result work.new log.new) in
        result.expanded ≡ expanded_after aimed (joined asked) [] made }
{
    routed_from(job, None, aimed, work, log)
}

// Goes on from the words used of a lent log, which must follow the job, by either search: answer, work slice and log are those of
// `resume_reply`. The other clause counts the nodes expanded in the turns that were appended.
pub fn resume(
    job: &JobTables,
    aimed: bool,
    used: u64,
    work: &mut [u64],
    log: &mut [u32],
) -> RouteAnswer
    ensures resumed { let asked = job_in job.now in
        Resumed asked used work.old log.old (route_reply_of result work.new log.new) }
    ensures expanded { let asked = job_in job.now in
        let made = turns_logged (route_reply_of result work.new log.new) in
        result.expanded ≡ expanded_after aimed (joined asked) (decode (take used log.old)) made }
{
    routed_from(job, Some(used as usize), aimed, work, log)
}

// Audits the words used of a log, whoever wrote it, against a job given as tables: answer and work slice are those of `audit_reply`, and
// what follows from that. The log is only read.
pub fn audit(job: &JobTables, used: u64, work: &mut [u64], log: &[u32]) -> AuditAnswer
    ensures audited { let asked = job_in job.now in
        Audited asked used work.old log.now (audit_reply_of result work.new) }
{
    if let Err(outcome) = refusal_of(job, work.len()) {
        return audit_log::refused(outcome);
    }
    let mut firsts = [0u32; FIRST_SINKS_MOST];
    let mut sinks = [0u16; SINKS_MOST];
    let mut criticalities = [0u8; SINKS_MOST];
    let ends = job.source.len() + 1;
    let count = join::joined_tables(job, &mut firsts, &mut sinks, &mut criticalities);
    let joined = JobTables {
        block: job.block,
        source: job.source,
        first_sink: &firsts[..ends],
        sink: &sinks[..count],
        delay: job.delay,
        criticality: &criticalities[..count],
        terms: job.terms,
    };
    audit_log::audit_joined(&joined, used as usize, work, log)
}
