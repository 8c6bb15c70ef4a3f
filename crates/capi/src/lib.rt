// The calls for C, C++ and Rust; include/arvumnao.h declares them. Each takes `out`, into which it writes its numbers.
// Their arguments are loose ones however many they are: C's own types, in the header's order, which may not change.
#![tactic(auto)]

ghost use Rattle.std.specs.Prelude.{[], ◌≡◌, get_or, take};
ghost use Rattle.search.specs.Block.{block_of};
ghost use Rattle.search.specs.Turn.{congestion_of, timed_congestion};
ghost use Rattle.job.specs.Job.{job_of};
ghost use Rattle.job.specs.Job.{job_in};
ghost use Rattle.negotiation.specs.Records.{decode};
ghost use Rattle.negotiation.specs.Outcome.{route_reply};
ghost use Rattle.negotiation.specs.Resume.{resume_reply};
ghost use Rattle.text.specs.ReadReplies.{tables_of};
ghost use Rattle.capi.specs.Calls.{call_of, price_call, timed_price_call, search_done, search_call, timed_search_call};
ghost use Rattle.capi.specs.Calls.{terms_of, route_done, route_call, resume_call, counted_call, route_aimed_call, resume_aimed_call};
ghost use Rattle.capi.specs.Calls.{audit_done, audit_call};
ghost use Rattle.capi.specs.Calls.{read_done, read_call, write_done, written_call, write_call, dot_call};
ghost use Rattle.capi.specs.Calls.{add_done, add_call, uses_call};
ghost use Rattle.text.specs.Dot.{style_reply};

mod counts;
mod out;

use job::{JobTables, Terms};
use out::OUT_ENTRIES;
use price::{Numbers, Tuning};
use search::Tables;
use text::Style;
use uses::KINDS;

// The price of a node.
#[unsafe(no_mangle)]
pub extern "C" fn arvumnao_price(
    kind: u32,
    factor: u32,
    others: u32,
    capacity: u32,
    history: u32,
    out: &mut [u64],
) -> u32
    ensures { call_of result out.new ≡ price_call kind factor others capacity history out.old }
{
    if out.len() < OUT_ENTRIES {
        return 0;
    }
    let numbers = Numbers {
        kind,
        factor,
        others,
        capacity,
        history,
    };
    out::put_price(price::price(numbers), out)
}

// The price of a node for a sink of a timed job.
#[unsafe(no_mangle)]
pub extern "C" fn arvumnao_timed_price(
    kind: u32,
    factor: u32,
    others: u32,
    capacity: u32,
    history: u32,
    delay: u32,
    criticality: u32,
    out: &mut [u64],
) -> u32
    ensures { call_of result out.new
        ≡ timed_price_call kind factor others capacity history delay criticality out.old }
{
    if out.len() < OUT_ENTRIES {
        return 0;
    }
    let numbers = Numbers {
        kind,
        factor,
        others,
        capacity,
        history,
    };
    out::put_price(price::timed_price(numbers, delay, criticality), out)
}

// The distances of all nodes from the marked ones.
#[unsafe(no_mangle)]
pub extern "C" fn arvumnao_search(
    kind: &[u8],
    capacity: &[u8],
    first_edge: &[u32],
    edge_target: &[u16],
    factor: u32,
    work: &mut [u64],
    history: &[u32],
    others: &[u16],
    in_tree: &[u8],
    out: &mut [u64],
) -> u32
    ensures { let block = block_of kind.now capacity.now first_edge.now edge_target.now in
        let congestion = congestion_of factor history.now others.now in
        search_done (call_of result out.new) work.new
        ≡ search_call block congestion in_tree.now work.old out.old }
{
    if out.len() < OUT_ENTRIES {
        return 0;
    }
    let tables = Tables {
        kind,
        capacity,
        first_edge,
        edge_target,
    };
    let answer = search::search(&tables, factor, work, history, others, in_tree);
    out::put_search(answer, out)
}

// The same by the prices for a sink of a timed job.
#[unsafe(no_mangle)]
pub extern "C" fn arvumnao_timed_search(
    kind: &[u8],
    capacity: &[u8],
    first_edge: &[u32],
    edge_target: &[u16],
    delay: &[u16],
    factor: u32,
    criticality: u32,
    work: &mut [u64],
    history: &[u32],
    others: &[u16],
    in_tree: &[u8],
    out: &mut [u64],
) -> u32
    ensures { let block = block_of kind.now capacity.now first_edge.now edge_target.now in
        let congestion = timed_congestion criticality delay.now factor history.now others.now in
        search_done (call_of result out.new) work.new
        ≡ timed_search_call block congestion in_tree.now work.old out.old }
{
    if out.len() < OUT_ENTRIES {
        return 0;
    }
    let tables = Tables {
        kind,
        capacity,
        first_edge,
        edge_target,
    };
    let answer = search::timed_search(
        &tables,
        delay,
        factor,
        criticality,
        work,
        history,
        others,
        in_tree,
    );
    out::put_search(answer, out)
}

// The entry at this place of the terms, or its default if the slice is shorter.
fn entry_or(terms: &[u32], place: usize, plain: u32) -> u32
    ensures { result ≡ get_or terms.now place plain }
{
    terms.get(place).copied().unwrap_or(plain)
}

// The terms of a job, from a slice of numbers: limit, first, up, down, step, rule, the last iteration before rule 2 is followed, and
// whether it is timed.
fn terms_of(terms: &[u32]) -> Terms
    ensures { result ≡ terms_of terms.now }
{
    let plain = job::plain_terms(0);
    let tuning = Tuning {
        first: entry_or(terms, 1, plain.tuning.first),
        up: entry_or(terms, 2, plain.tuning.up),
        down: entry_or(terms, 3, plain.tuning.down),
        step: entry_or(terms, 4, plain.tuning.step),
    };
    Terms {
        limit: entry_or(terms, 0, 0),
        tuning,
        rule: entry_or(terms, 5, plain.rule),
        until: entry_or(terms, 6, plain.until),
        timed: 1 <= entry_or(terms, 7, 0),
    }
}

// Routes a job given as tables, by the search that aims or by the plain one.
fn route_by(job: &JobTables, aimed: bool, work: &mut [u64], log: &mut [u32], out: &mut [u64]) -> u32
    ensures { let asked = job_in job.now in
        let reply = route_reply asked work.old log.old in
        route_done (call_of result out.new) work.new log.new
        ≡ counted_call aimed asked [] reply work.old log.old out.old }
{
    if out.len() < OUT_ENTRIES {
        return 0;
    }
    out::put_routed(negotiation::route(job, aimed, work, log), out)
}

// Routes a job given as tables.
#[unsafe(no_mangle)]
pub extern "C" fn arvumnao_route(
    kind: &[u8],
    capacity: &[u8],
    first_edge: &[u32],
    edge_target: &[u16],
    source: &[u16],
    first_sink: &[u32],
    sink: &[u16],
    delay: &[u16],
    criticality: &[u8],
    terms: &[u32],
    work: &mut [u64],
    log: &mut [u32],
    out: &mut [u64],
) -> u32
    ensures { let job = job_of kind.now capacity.now first_edge.now edge_target.now
        source.now first_sink.now sink.now delay.now criticality.now
        (terms_of terms.now) in
        route_done (call_of result out.new) work.new log.new
        ≡ route_call job work.old log.old out.old }
{
    let block = Tables {
        kind,
        capacity,
        first_edge,
        edge_target,
    };
    let job = JobTables {
        block,
        source,
        first_sink,
        sink,
        delay,
        criticality,
        terms: terms_of(terms),
    };
    route_by(&job, false, work, log, out)
}

// The same by the search that aims, and how many nodes it expanded.
#[unsafe(no_mangle)]
pub extern "C" fn arvumnao_route_aimed(
    kind: &[u8],
    capacity: &[u8],
    first_edge: &[u32],
    edge_target: &[u16],
    source: &[u16],
    first_sink: &[u32],
    sink: &[u16],
    delay: &[u16],
    criticality: &[u8],
    terms: &[u32],
    work: &mut [u64],
    log: &mut [u32],
    out: &mut [u64],
) -> u32
    ensures { let job = job_of kind.now capacity.now first_edge.now edge_target.now
        source.now first_sink.now sink.now delay.now criticality.now
        (terms_of terms.now) in
        route_done (call_of result out.new) work.new log.new
        ≡ route_aimed_call job work.old log.old out.old }
{
    let block = Tables {
        kind,
        capacity,
        first_edge,
        edge_target,
    };
    let job = JobTables {
        block,
        source,
        first_sink,
        sink,
        delay,
        criticality,
        terms: terms_of(terms),
    };
    route_by(&job, true, work, log, out)
}

// Continues from the words used of a lent log, by either search.
fn resume_by(
    job: &JobTables,
    aimed: bool,
    used: u64,
    work: &mut [u64],
    log: &mut [u32],
    out: &mut [u64],
) -> u32
    ensures { let asked = job_in job.now in
        let lent = decode (take used log.old) in
        let reply = resume_reply asked used work.old log.old in
        route_done (call_of result out.new) work.new log.new
        ≡ counted_call aimed asked lent reply work.old log.old out.old }
{
    if out.len() < OUT_ENTRIES {
        return 0;
    }
    out::put_routed(negotiation::resume(job, aimed, used, work, log), out)
}

// Continues from the words used of a lent log.
#[unsafe(no_mangle)]
pub extern "C" fn arvumnao_resume(
    kind: &[u8],
    capacity: &[u8],
    first_edge: &[u32],
    edge_target: &[u16],
    source: &[u16],
    first_sink: &[u32],
    sink: &[u16],
    delay: &[u16],
    criticality: &[u8],
    terms: &[u32],
    used: u64,
    work: &mut [u64],
    log: &mut [u32],
    out: &mut [u64],
) -> u32
    ensures { let job = job_of kind.now capacity.now first_edge.now edge_target.now
        source.now first_sink.now sink.now delay.now criticality.now
        (terms_of terms.now) in
        route_done (call_of result out.new) work.new log.new
        ≡ resume_call job used work.old log.old out.old }
{
    let block = Tables {
        kind,
        capacity,
        first_edge,
        edge_target,
    };
    let job = JobTables {
        block,
        source,
        first_sink,
        sink,
        delay,
        criticality,
        terms: terms_of(terms),
    };
    resume_by(&job, false, used, work, log, out)
}

// The same by the search that aims, and how many nodes it expanded in the turns that were appended.
#[unsafe(no_mangle)]
pub extern "C" fn arvumnao_resume_aimed(
    kind: &[u8],
    capacity: &[u8],
    first_edge: &[u32],
    edge_target: &[u16],
    source: &[u16],
    first_sink: &[u32],
    sink: &[u16],
    delay: &[u16],
    criticality: &[u8],
    terms: &[u32],
    used: u64,
    work: &mut [u64],
    log: &mut [u32],
    out: &mut [u64],
) -> u32
    ensures { let job = job_of kind.now capacity.now first_edge.now edge_target.now
        source.now first_sink.now sink.now delay.now criticality.now
        (terms_of terms.now) in
        route_done (call_of result out.new) work.new log.new
        ≡ resume_aimed_call job used work.old log.old out.old }
{
    let block = Tables {
        kind,
        capacity,
        first_edge,
        edge_target,
    };
    let job = JobTables {
        block,
        source,
        first_sink,
        sink,
        delay,
        criticality,
        terms: terms_of(terms),
    };
    resume_by(&job, true, used, work, log, out)
}

// Audits the words used of a log, whoever wrote it; the log is only read.
#[unsafe(no_mangle)]
pub extern "C" fn arvumnao_audit(
    kind: &[u8],
    capacity: &[u8],
    first_edge: &[u32],
    edge_target: &[u16],
    source: &[u16],
    first_sink: &[u32],
    sink: &[u16],
    delay: &[u16],
    criticality: &[u8],
    terms: &[u32],
    used: u64,
    work: &mut [u64],
    log: &[u32],
    out: &mut [u64],
) -> u32
    ensures { let job = job_of kind.now capacity.now first_edge.now edge_target.now
        source.now first_sink.now sink.now delay.now criticality.now
        (terms_of terms.now) in
        audit_done (call_of result out.new) work.new
        ≡ audit_call job used work.old log.now out.old }
{
    if out.len() < OUT_ENTRIES {
        return 0;
    }
    let block = Tables {
        kind,
        capacity,
        first_edge,
        edge_target,
    };
    let job = JobTables {
        block,
        source,
        first_sink,
        sink,
        delay,
        criticality,
        terms: terms_of(terms),
    };
    out::put_audit(negotiation::audit(&job, used, work, log), out)
}

// Reads a job text into the seven tables, and into tables 9 and 10 if it is timed.
#[unsafe(no_mangle)]
pub extern "C" fn arvumnao_read(
    text: &[u8],
    kind: &mut [u8],
    capacity: &mut [u8],
    first_edge: &mut [u32],
    edge_target: &mut [u16],
    source: &mut [u16],
    first_sink: &mut [u32],
    sink: &mut [u16],
    delay: &mut [u16],
    criticality: &mut [u8],
    out: &mut [u64],
) -> u32
    ensures { let tables = tables_of kind.old capacity.old first_edge.old edge_target.old
        source.old first_sink.old sink.old delay.old criticality.old in
        let left = tables_of kind.new capacity.new first_edge.new edge_target.new
        source.new first_sink.new sink.new delay.new criticality.new in
        read_done (call_of result out.new) left ≡ read_call text.now tables out.old }
{
    if out.len() < OUT_ENTRIES {
        return 0;
    }
    let answer = text::read_job(
        text,
        kind,
        capacity,
        first_edge,
        edge_target,
        source,
        first_sink,
        sink,
        delay,
        criticality,
    );
    out::put_read(answer, out)
}

// Writes either text of a log, whose nets are those of table 5.
fn write_style(style: Style, source: &[u16], log: &[u32], buffer: &mut [u8], out: &mut [u64]) -> u32
    ensures { let done = write_done (call_of result out.new) buffer.new in
        let reply = style_reply style source.now log.now buffer.old in
        done ≡ written_call reply buffer.old out.old }
{
    if out.len() < OUT_ENTRIES {
        return 0;
    }
    out::put_written(text::write_style(style, source, log, buffer), out)
}

// Writes the routes text.
#[unsafe(no_mangle)]
pub extern "C" fn arvumnao_write(
    source: &[u16],
    log: &[u32],
    buffer: &mut [u8],
    out: &mut [u64],
) -> u32
    ensures { let done = write_done (call_of result out.new) buffer.new in
        done ≡ write_call source.now log.now buffer.old out.old }
{
    write_style(Style::Lines, source, log, buffer, out)
}

// Writes the picture of the same branches, in the DOT language of Graphviz.
#[unsafe(no_mangle)]
pub extern "C" fn arvumnao_dot(
    source: &[u16],
    log: &[u32],
    buffer: &mut [u8],
    out: &mut [u64],
) -> u32
    ensures { let done = write_done (call_of result out.new) buffer.new in
        done ≡ dot_call source.now log.now buffer.old out.old }
{
    write_style(Style::Picture, source, log, buffer, out)
}

// Adds a log to counts of uses.
#[unsafe(no_mangle)]
#[tactic(auto, unfolding(crate::specs::Calls::add_call))]
pub extern "C" fn arvumnao_uses_add(
    kind: &[u8],
    capacity: &[u8],
    first_edge: &[u32],
    edge_target: &[u16],
    counts: &mut [u64],
    logs: u64,
    log: &[u32],
    out: &mut [u64],
) -> u32
    ensures { let block = block_of kind.now capacity.now first_edge.now edge_target.now in
        add_done (call_of result out.new) counts.new
        ≡ add_call block counts.old logs log.now out.old }
{
    if counts.len() < KINDS || out.len() < OUT_ENTRIES {
        return 0;
    }
    let tables = Tables {
        kind,
        capacity,
        first_edge,
        edge_target,
    };
    out::put_added(counts::add_log(&tables, counts, logs, log), logs, out)
}

// Writes the text of counts of uses.
#[unsafe(no_mangle)]
#[tactic(auto, unfolding(crate::specs::Calls::uses_call, crate::specs::Calls::written_call))]
pub extern "C" fn arvumnao_uses_write(
    kind: &[u8],
    capacity: &[u8],
    first_edge: &[u32],
    edge_target: &[u16],
    counts: &[u64],
    logs: u64,
    buffer: &mut [u8],
    out: &mut [u64],
) -> u32
    ensures { let block = block_of kind.now capacity.now first_edge.now edge_target.now in
        write_done (call_of result out.new) buffer.new
        ≡ uses_call block counts.now logs buffer.old out.old }
{
    if counts.len() < KINDS || out.len() < OUT_ENTRIES {
        return 0;
    }
    let tables = Tables {
        kind,
        capacity,
        first_edge,
        edge_target,
    };
    out::put_printed(counts::write_uses(&tables, counts, logs, buffer), out)
}
