// An audit of a job of joined nets: refusal 7, then the log is followed, each turn held against the search.
ghost use Rattle.std.specs.Prelude.{true, ◌≡◌, ◌*◌, ◌≤◌, length, take};
ghost use Rattle.job.specs.Job.{nodes};
ghost use Rattle.job.specs.Job.{job_in};
ghost use Rattle.negotiation.specs.Routable.{Routable};
ghost use Rattle.negotiation.specs.Outcome.{first_progress, reached};
ghost use Rattle.negotiation.specs.Kept.{Ready};
ghost use Rattle.negotiation.specs.Resume.{replay_by};
ghost use Rattle.negotiation.specs.Audit.{audit_reply_of, refused_audit, audited_reply};
ghost use Rattle.negotiation.specs.AuditSteps.{refused_audit_answer, told_answer, audit_answer};

use crate::reach::Missing;
use crate::take_up::{Stopped, Told};
use crate::tariff::Tariff;
use crate::{AuditAnswer, Outcome, reach, take_up, turns};
use job::{JobTables, NETS_MOST};
use search::NODES_MOST;

// The answer of an audit that is refused.
pub fn refused(outcome: Outcome) -> AuditAnswer
    ensures { result ≡ refused_audit_answer outcome }
{
    AuditAnswer {
        outcome,
        turns: 0,
        whole: 0,
        over: 0,
    }
}

// The answer of an audit that came so far.
fn told(outcome: Outcome, at: Told) -> AuditAnswer
    ensures { result ≡ told_answer outcome at }
{
    AuditAnswer {
        outcome,
        turns: at.turns,
        whole: at.whole,
        over: at.over,
    }
}

// The answer by what the log came to.
#[tactic(auto, unfolding(crate::specs::AuditSteps::audit_answer))]
fn answer(taken: Result<Tariff, Stopped>) -> AuditAnswer
    ensures { result ≡ audit_answer taken }
{
    match taken {
        Ok(t) => refused(Outcome::Diverges(t.words as u64)),
        Err(Stopped::Off(word)) => refused(Outcome::Diverges(word as u64)),
        Err(Stopped::Ends(at)) => told(Outcome::Accepted, at),
        Err(Stopped::NotCheapest { at, cost, least }) => told(
            Outcome::NotCheapest {
                word: at.words as u64,
                cost,
                least,
            },
            at,
        ),
    }
}

// The log is followed from lists and tariff of a run that begins.
fn audit_from(
    job: &JobTables,
    used: usize,
    begun: Tariff,
    history: &mut [u32],
    users: &mut [u16],
    in_tree: &mut [u8],
    tree_from: &mut [usize],
    tree_to: &mut [usize],
    due: &mut [u8],
    work: &mut [u64],
    log: &[u32],
) -> AuditAnswer
    requires { let asked = job_in job.now in
        Routable asked × (8 * nodes asked ≤ length work.old)
        × Ready asked (first_progress asked) begun history.old users.old in_tree.old tree_from.old tree_to.old due.old
        (take used log.now) }
    ensures { let asked = job_in job.now in
        audit_reply_of result work.new ≡ audited_reply asked (replay_by true asked used log.now) work.old }
{
    if log.len() < used {
        turns::clear(work, 8 * job.block.kind.len());
        return refused(Outcome::Diverges(log.len() as u64));
    }
    let taken = take_up::take_up(
        job,
        true,
        begun,
        history,
        users,
        in_tree,
        tree_from,
        tree_to,
        due,
        work,
        &log[..used],
    );
    turns::clear(work, 8 * job.block.kind.len());
    answer(taken)
}

// The lists and the tariff of a run that begins, and the audit from there.
fn audit_lists(job: &JobTables, used: usize, work: &mut [u64], log: &[u32]) -> AuditAnswer
    requires { let asked = job_in job.now in
        Routable asked × (8 * nodes asked ≤ length work.old) }
    ensures { let asked = job_in job.now in
        audit_reply_of result work.new ≡ audited_reply asked (replay_by true asked used log.now) work.old }
{
    let n = job.block.kind.len();
    let nets = job.source.len();
    let mut history = [1u32; NODES_MOST];
    let mut users = [0u16; NODES_MOST];
    let mut in_tree = [0u8; NODES_MOST];
    let mut tree_from = [0usize; NETS_MOST];
    let mut tree_to = [0usize; NETS_MOST];
    let mut due = [0u8; NETS_MOST];
    let begun = Tariff {
        iteration: 1,
        factor: 0,
        turns: 0,
        words: 0,
        aimed: false,
        expanded: 0,
    };
    audit_from(
        job,
        used,
        begun,
        &mut history[..n],
        &mut users[..n],
        &mut in_tree[..n],
        &mut tree_from[..nets],
        &mut tree_to[..nets],
        &mut due[..nets],
        work,
        log,
    )
}

// Audits the log of a job of joined nets: refusal 7, then its turns.
pub fn audit_joined(job: &JobTables, used: usize, work: &mut [u64], log: &[u32]) -> AuditAnswer
    requires { let asked = job_in job.now in
        Routable asked × (8 * nodes asked ≤ length work.old) }
    ensures { let asked = job_in job.now in
        let run = audited_reply asked (replay_by true asked used log.now) work.old in
        audit_reply_of result work.new ≡ reached refused_audit asked work.old run }
{
    match reach::unreachable(job, work) {
        Some(Missing { net, place }) => {
            turns::clear(work, 8 * job.block.kind.len());
            refused(Outcome::Unreachable { net, place })
        }
        None => audit_lists(job, used, work, log),
    }
}
