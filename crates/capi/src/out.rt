// `out`, into which each call writes its numbers: a refusal's three, then the call's own.
ghost use Rattle.std.specs.Prelude.{[], ◌∷◌, ◌≡◌, ◌+◌, ◌≤◌, length, get_or};
ghost use Rattle.price.specs.Test.{choose};
ghost use Rattle.price.specs.Replies.{price_reply_of};
ghost use Rattle.search.specs.Replies.{search_refusal};
ghost use Rattle.job.specs.Tables.{numbers_if};
ghost use Rattle.negotiation.specs.Outcome.{route_refusal};
ghost use Rattle.text.specs.ReadReplies.{terms_numbers, read_refusal, read_numbers};
ghost use Rattle.text.specs.Routes.{write_refusal, written_bytes};
ghost use Rattle.uses.specs.Uses.{add_refusal, logs_after, print_refusal, printed_bytes};
ghost use Rattle.capi.specs.Calls.{out_entries, call_of, out_with, padded};

use job::Refused;
use negotiation::{AuditAnswer, Outcome, RouteAnswer};
use price::BadNumber;
use search::Refusal;
use text::{JobCounts, ReadRefusal, WriteRefusal};
use uses::{AddRefusal, PrintRefusal};

// The entries of `out` that a call writes.
pub const OUT_ENTRIES: usize = 16;

// A refusal's three numbers, 0 where there are fewer.
fn told(refused: Option<Refused>) -> [u64; 3]
    ensures { result ≡ padded 3 (numbers_if refused) }
{
    match refused {
        Some(r) => [r.number as u64, r.first, r.second.unwrap_or(0)],
        None => [0; 3],
    }
}

// Writes a refusal's numbers and so many of the call's own, and answers 1.
fn put(refused: Option<Refused>, own: &[u64], out: &mut [u64]) -> u32
    requires { (out_entries ≤ length out.old) × (3 + length own.now ≤ out_entries) }
    ensures { call_of result out.new ≡ call_of 1 (out_with (numbers_if refused) own.now out.old) }
{
    let first = told(refused);
    out[..OUT_ENTRIES].fill(0);
    out[..3].copy_from_slice(&first);
    out[3..3 + own.len()].copy_from_slice(own);
    1
}

// Writes the numbers of a price.
pub fn put_price(answer: Result<u64, BadNumber>, out: &mut [u64]) -> u32
    requires { out_entries ≤ length out.old }
    ensures { let after = out_with (price_reply_of answer).refusal ((price_reply_of answer).price ∷ []) out.old in
        call_of result out.new ≡ call_of 1 after }
{
    match answer {
        Ok(price) => put(None, &[price], out),
        Err(bad) => put(Some(bad.into()), &[0], out),
    }
}

// Writes the numbers of a search.
pub fn put_search(answer: Result<(), Refusal>, out: &mut [u64]) -> u32
    requires { out_entries ≤ length out.old }
    ensures { call_of result out.new ≡ call_of 1 (out_with (search_refusal answer) [] out.old) }
{
    match answer {
        Ok(()) => put(None, &[], out),
        Err(refusal) => put(Some(refusal.into()), &[], out),
    }
}

// Writes the numbers of a routing.
pub fn put_routed(r: RouteAnswer, out: &mut [u64]) -> u32
    requires { out_entries ≤ length out.old }
    ensures { let refusal = route_refusal r.outcome r.iteration r.turns in
        let after = out_with refusal (r.iteration ∷ r.turns ∷ r.used ∷ r.expanded ∷ []) out.old in
        call_of result out.new ≡ call_of 1 after }
{
    let own = [r.iteration as u64, r.turns, r.used, r.expanded];
    put(
        negotiation::refusal(r.outcome, r.iteration, r.turns),
        &own,
        out,
    )
}

// The least cost of a turn that is not cheapest, 0 where the outcome is another.
fn least_of(outcome: Outcome) -> u64
    ensures { result ≡ get_or (route_refusal outcome 0 0) 3 0 }
{
    match outcome {
        Outcome::NotCheapest {
            word: _,
            cost: _,
            least,
        } => least,
        _ => 0,
    }
}

// Writes the numbers of an audit.
pub fn put_audit(r: AuditAnswer, out: &mut [u64]) -> u32
    requires { out_entries ≤ length out.old }
    ensures { let told = route_refusal r.outcome 0 0 in
        let after = out_with told (r.turns ∷ r.whole ∷ r.over ∷ get_or told 3 0 ∷ []) out.old in
        call_of result out.new ≡ call_of 1 after }
{
    let own = [r.turns, r.whole as u64, r.over as u64, least_of(r.outcome)];
    put(negotiation::refusal(r.outcome, 0, 0), &own, out)
}

// The numbers of a job that was read: its counts, its terms, and 1 where it is timed.
fn job_numbers(counts: JobCounts) -> [u64; 12]
    ensures { result ≡ counts.nodes ∷ counts.edges ∷ counts.nets ∷ counts.sinks ∷ terms_numbers counts.terms }
{
    let terms = counts.terms;
    let tuning = terms.tuning;
    [
        counts.nodes as u64,
        counts.edges as u64,
        counts.nets as u64,
        counts.sinks as u64,
        terms.limit as u64,
        tuning.first as u64,
        tuning.up as u64,
        tuning.down as u64,
        tuning.step as u64,
        terms.rule as u64,
        terms.until as u64,
        terms.timed as u64,
    ]
}

// Writes the numbers of a reading.
pub fn put_read(answer: Result<JobCounts, ReadRefusal>, out: &mut [u64]) -> u32
    requires { out_entries ≤ length out.old }
    ensures { let after = out_with (read_refusal answer) (read_numbers answer) out.old in
        call_of result out.new ≡ call_of 1 after }
{
    match answer {
        Ok(counts) => put(None, &job_numbers(counts), out),
        Err(refusal) => put(Some(refusal.into()), &[], out),
    }
}

// Writes the numbers of a writing.
pub fn put_written(answer: Result<usize, WriteRefusal>, out: &mut [u64]) -> u32
    requires { out_entries ≤ length out.old }
    ensures { let after = out_with (write_refusal answer) (written_bytes answer ∷ []) out.old in
        call_of result out.new ≡ call_of 1 after }
{
    match answer {
        Ok(bytes) => put(None, &[bytes as u64], out),
        Err(refusal) => put(Some(refusal.into()), &[0], out),
    }
}

// Writes the numbers of a call that adds a log to counts of this many logs.
pub fn put_added(answer: Result<u64, AddRefusal>, logs: u64, out: &mut [u64]) -> u32
    requires { out_entries ≤ length out.old }
    ensures { let after = out_with (add_refusal answer) (logs_after logs answer ∷ []) out.old in
        call_of result out.new ≡ call_of 1 after }
{
    match answer {
        Ok(after) => put(None, &[after], out),
        Err(refusal) => put(Some(refusal.into()), &[logs], out),
    }
}

// Writes the numbers of a call that prints counts.
pub fn put_printed(answer: Result<usize, PrintRefusal>, out: &mut [u64]) -> u32
    requires { out_entries ≤ length out.old }
    ensures { let after = out_with (print_refusal answer) (printed_bytes answer ∷ []) out.old in
        call_of result out.new ≡ call_of 1 after }
{
    match answer {
        Ok(bytes) => put(None, &[bytes as u64], out),
        Err(refusal) => put(Some(refusal.into()), &[0], out),
    }
}
