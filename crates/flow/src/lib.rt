// The whole way from a job text to its routes text or their picture, and what the program prints.
#![tactic(auto)]

ghost use Rattle.std.specs.Prelude.{◌≡◌};
ghost use Rattle.price.specs.Test.{choose};
ghost use Rattle.job.specs.Job.{job_in};
ghost use Rattle.text.specs.ReadReplies.{Tables, tables_of};
ghost use Rattle.text.specs.LineReplies.{place_reply_of};
ghost use Rattle.flow.specs.RunReplies.{lent_of, route_run, run_reply, run_reply_of, response_of, response};
ghost use Rattle.flow.specs.RunReplies.{shown_in, program_lent};
ghost use Rattle.flow.specs.Steps.{answer_line};

mod refusals;

use job::{JobTables, Refused, Terms};
use text::Style;

// What the program lends: bytes of the job text, which may have no more, and of the routes buffer ..
pub const BYTES: usize = 65536;

// .. as many bytes of log and of work ..
const WORDS: usize = 16384;

const ENTRIES: usize = 8192;

// .. and tables for this many nodes, edges, nets and sinks.
const NODES: usize = 1024;

const FIRST_EDGES: usize = 1025;

const EDGES: usize = 8192;

const NETS: usize = 512;

const FIRST_SINKS: usize = 513;

const SINKS: usize = 4096;

// Routes a job given as tables, and writes its routes where it is accepted: how many bytes they are.
fn route_job(
    style: Style,
    job: &JobTables,
    work: &mut [u64],
    log: &mut [u32],
    routes: &mut [u8],
) -> Result<usize, Refused>
    ensures { let j = job_in job.now in
        ((t : Tables) → run_reply_of result (lent_of t work.new log.new routes.new)
        ≡ route_run style j t work.old log.old routes.old) }
{
    let r = negotiation::route(job, false, work, log);
    match negotiation::refusal(r.outcome, r.iteration, r.turns) {
        Some(refused) => Err(refused),
        None => Ok(text::write_style(style, job.source, &log[..r.used as usize], routes)?),
    }
}

// This many entries of a table that only timed jobs have.
fn if_timed(terms: Terms, count: usize) -> usize
    ensures { result ≡ choose terms.timed count 0 }
{
    if terms.timed { count } else { 0 }
}

// Reads a job text, routes the job and writes its routes in this style. The tables, the work slice and the log are lent for it.
// These stay loose slices, as in text: with a struct of `&mut` slices the proof of the reader didn't close.
pub fn run<'x>(
    style: Style,
    text: &[u8],
    kind: &'x mut [u8],
    capacity: &'x mut [u8],
    first_edge: &'x mut [u32],
    edge_target: &'x mut [u16],
    source: &'x mut [u16],
    first_sink: &'x mut [u32],
    sink: &'x mut [u16],
    delay: &'x mut [u16],
    criticality: &'x mut [u8],
    work: &mut [u64],
    log: &mut [u32],
    routes: &mut [u8],
) -> Result<usize, Refused>
    ensures answers { let tables = tables_of kind.old capacity.old first_edge.old edge_target.old
        source.old first_sink.old sink.old delay.old criticality.old in
        let left = tables_of kind.new capacity.new first_edge.new edge_target.new
        source.new first_sink.new sink.new delay.new criticality.new in
        let lent = lent_of tables work.old log.old routes.old in
        let after = lent_of left work.new log.new routes.new in
        run_reply_of result after ≡ run_reply style text.now lent }
{
    let counts = text::read_job(
        text,
        kind,
        capacity,
        first_edge,
        edge_target,
        source,
        first_sink,
        sink,
        delay,
        criticality,
    )?;
    let terms = counts.terms;
    let job = JobTables {
        block: job::Tables {
            kind: &kind[..counts.nodes],
            capacity: &capacity[..counts.nodes],
            first_edge: &first_edge[..counts.nodes + 1],
            edge_target: &edge_target[..counts.edges],
        },
        source: &source[..counts.nets],
        first_sink: &first_sink[..counts.nets + 1],
        sink: &sink[..counts.sinks],
        delay: &delay[..if_timed(terms, counts.nodes)],
        criticality: &criticality[..if_timed(terms, counts.sinks)],
        terms,
    };
    route_job(style, &job, work, log, routes)
}

// What an answer leaves in the routes buffer: the text that is there already, or the line of the refusal.
fn put_answer(answer: Result<usize, Refused>, routes: &mut [u8]) -> usize
    ensures { place_reply_of result routes.new ≡ answer_line answer routes.old }
{
    match answer {
        Ok(bytes) => bytes,
        Err(refused) => refusals::write_refusal(refused, routes),
    }
}

// What the program prints for its input: its routes in this style, or the line of the refusal, at the start of the routes buffer.
// The answer is how many bytes these are.
pub fn respond(
    style: Style,
    input: &[u8],
    kind: &mut [u8],
    capacity: &mut [u8],
    first_edge: &mut [u32],
    edge_target: &mut [u16],
    source: &mut [u16],
    first_sink: &mut [u32],
    sink: &mut [u16],
    delay: &mut [u16],
    criticality: &mut [u8],
    work: &mut [u64],
    log: &mut [u32],
    routes: &mut [u8],
) -> usize
    ensures answers { let tables = tables_of kind.old capacity.old first_edge.old edge_target.old
        source.old first_sink.old sink.old delay.old criticality.old in
        let left = tables_of kind.new capacity.new first_edge.new edge_target.new
        source.new first_sink.new sink.new delay.new criticality.new in
        let lent = lent_of tables work.old log.old routes.old in
        let after = lent_of left work.new log.new routes.new in
        response_of result after ≡ response style input.now lent }
{
    if BYTES < input.len() {
        let refused = Refused {
            number: 12,
            first: BYTES as u64,
            second: None,
        };
        return refusals::write_refusal(refused, routes);
    }
    let answer = run(
        style,
        input,
        kind,
        capacity,
        first_edge,
        edge_target,
        source,
        first_sink,
        sink,
        delay,
        criticality,
        work,
        log,
        routes,
    );
    put_answer(answer, routes)
}

// The same with what the program lends.
pub fn answer(style: Style, input: &[u8], routes: &mut [u8; BYTES]) -> usize
    ensures answers { let shown = shown_in (response style input.now (program_lent routes.old)) in
        place_reply_of result routes.new ≡ shown }
{
    let mut kind = [0u8; NODES];
    let mut capacity = [0u8; NODES];
    let mut first_edge = [0u32; FIRST_EDGES];
    let mut edge_target = [0u16; EDGES];
    let mut source = [0u16; NETS];
    let mut first_sink = [0u32; FIRST_SINKS];
    let mut sink = [0u16; SINKS];
    let mut delay = [0u16; NODES];
    let mut criticality = [0u8; SINKS];
    let mut work = [0u64; ENTRIES];
    let mut log = [0u32; WORDS];
    respond(
        style,
        input,
        &mut kind,
        &mut capacity,
        &mut first_edge,
        &mut edge_target,
        &mut source,
        &mut first_sink,
        &mut sink,
        &mut delay,
        &mut criticality,
        &mut work,
        &mut log,
        routes,
    )
}
