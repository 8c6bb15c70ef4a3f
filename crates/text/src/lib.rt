// The job text before the router, and the routes text or the picture after it.
#![tactic(auto)]

ghost use Rattle.std.specs.Prelude.{[], ◌∷◌, ◌≡◌, ◌≤◌, length};
ghost use Rattle.search.specs.Replies.{sinks_most};
ghost use Rattle.price.specs.Bounds.{nodes_most};
ghost use Rattle.price.specs.Test.{choose};
ghost use Rattle.text.specs.ReadReplies.{tables_of, lowest_short, short_times, stored_reply, read_reply, read_reply_of};
ghost use Rattle.text.specs.ReadSteps.{table_number, Named, lowest_of_nine, RoomForAll, CountsWithin, job_taken, line_refusal};
ghost use Rattle.text.specs.Routes.{text_reply, write_reply, write_reply_of};
ghost use Rattle.text.specs.Dot.{text_in, dot_reply, style_reply};
ghost use Rattle.text.specs.WriteSteps.{Filled, LogTested, LatestPlaces};
ghost use Rattle.negotiation.specs.Records.{decode};
ghost use Rattle.job.specs.Tables.{nets_most};

// The counts of a job that was read, which the tables now hold, and its terms.
#[derive(Clone, Copy)]
pub struct JobCounts {
    pub nodes: usize,
    pub edges: usize,
    pub nets: usize,
    pub sinks: usize,
    pub terms: Terms,
}

// Why the reader refuses a text.
#[derive(Clone, Copy, Debug, PartialEq, Eq)]
pub enum ReadRefusal {
    // 1: this line is of wrong shape or missing.
    Malformed(usize),
    // 2: this line has a value beyond its bounds.
    BeyondBounds(usize),
    // 3: this line is of wrong order or number.
    WrongOrder(usize),
    // 4: this table is too short for the job.
    ShortTable(u32),
    // 15: a timed job has more nodes, or a larger limit, than it may.
    TooLarge { nodes: usize, limit: u32 },
}

impl From<LineRefusal> for ReadRefusal {
    ghost from_gives = { λ a b. b ≡ line_refusal a };

    fn from(refusal: LineRefusal) -> ReadRefusal {
        let line = refusal.line;
        match refusal.fault {
            LineFault::Malformed => ReadRefusal::Malformed(line),
            LineFault::BeyondBounds => ReadRefusal::BeyondBounds(line),
            LineFault::WrongOrder => ReadRefusal::WrongOrder(line),
        }
    }
}

impl From<ReadRefusal> for Refused {
    ghost use Rattle.std.specs.Prelude.{◌≡◌};
    ghost use Rattle.job.specs.Tables.{refused_numbers};
    ghost use Rattle.text.specs.ReadReplies.{refusal_numbers};

    ghost from_gives = { λ refusal refused. refused_numbers refused ≡ refusal_numbers refusal };

    fn from(refusal: ReadRefusal) -> Refused {
        let (number, first, second) = match refusal {
            ReadRefusal::Malformed(line) => (1, line as u64, None),
            ReadRefusal::BeyondBounds(line) => (2, line as u64, None),
            ReadRefusal::WrongOrder(line) => (3, line as u64, None),
            ReadRefusal::ShortTable(table) => (4, table as u64, None),
            ReadRefusal::TooLarge { nodes, limit } => (15, nodes as u64, Some(limit as u64)),
        };
        Refused {
            number,
            first,
            second,
        }
    }
}

// The two texts of a log: the lines of its routes, or their picture.
#[derive(Clone, Copy, Debug, PartialEq, Eq)]
pub enum Style {
    Lines,
    Picture,
}

// Why the writer writes nothing.
#[derive(Clone, Copy, Debug, PartialEq, Eq)]
pub enum WriteRefusal {
    // 5: this table, the sources, breaks its rule.
    BadTable(u32),
    // 10: the record that begins at this word is unsound.
    Unsound(usize),
    // 11: the buffer is shorter than the text, which takes this many bytes.
    ShortBuffer(u64),
}

impl From<UnsoundLog> for WriteRefusal {
    ghost use Rattle.text.specs.declared.WriteRefusal.TheVariants.{Unsound};

    ghost from_gives = { λ log refusal. refusal ≡ Unsound log.word };

    fn from(log: UnsoundLog) -> WriteRefusal {
        WriteRefusal::Unsound(log.word)
    }
}

impl From<WriteRefusal> for Refused {
    ghost use Rattle.std.specs.Prelude.{◌≡◌};
    ghost use Rattle.job.specs.Tables.{refused_numbers};
    ghost use Rattle.text.specs.Routes.{write_numbers};

    ghost from_gives = { λ refusal refused. refused_numbers refused ≡ write_numbers refusal };

    fn from(refusal: WriteRefusal) -> Refused {
        let (number, first) = match refusal {
            WriteRefusal::BadTable(table) => (5, table as u64),
            WriteRefusal::Unsound(word) => (10, word as u64),
            WriteRefusal::ShortBuffer(needed) => (11, needed),
        };
        Refused {
            number,
            first,
            second: None,
        }
    }
}

mod bounds;
mod branches;
mod copy;
mod decimal;
mod dot;
mod edges;
mod fields;
mod head;
mod joins;
mod latest;
mod log_check;
mod nets;
mod nodes;
mod optional;
mod parts;
mod place;
mod printing;
mod reader;
mod rule;
mod timed;
mod tuning;
mod users;

use copy::JobRead;
pub use fields::byte_is;
use job::{FIRST_SINKS_MOST, NETS_MOST, Refused, Terms};
use latest::Latest;
pub use log_check::{SoundLog, UnsoundLog};
use place::{LineFault, LineRefusal};
pub use printing::print_line;
use search::{EDGES_MOST, FIRST_EDGES_MOST, NODES_MOST, SINKS_MOST};
pub use users::node_users;

// How many entries each of the lent tables has.
#[derive(Clone, Copy)]
struct Lengths {
    kind: usize,
    capacity: usize,
    first_edge: usize,
    edge_target: usize,
    source: usize,
    first_sink: usize,
    sink: usize,
    delay: usize,
    criticality: usize,
}

// The lowest of tables 1 to 7 that is shorter than the job needs.
fn short_table(counts: JobCounts, lent: Lengths) -> Option<u32>
    requires { (counts.nodes ≤ nodes_most) × (counts.nets ≤ nets_most) }
    ensures number { table_number result ≡ lowest_short counts.nodes counts.edges counts.nets counts.sinks lent.kind lent.capacity
        lent.first_edge lent.edge_target lent.source lent.first_sink lent.sink }
    ensures named { Named result }
{
    if lent.kind < counts.nodes {
        return Some(1);
    }
    if lent.capacity < counts.nodes {
        return Some(2);
    }
    if lent.first_edge < counts.nodes + 1 {
        return Some(3);
    }
    if lent.edge_target < counts.edges {
        return Some(4);
    }
    if lent.source < counts.nets {
        return Some(5);
    }
    if lent.first_sink < counts.nets + 1 {
        return Some(6);
    }
    if lent.sink < counts.sinks {
        return Some(7);
    }
    None
}

// The same of tables 9 and 10, which need this many delays and criticalities.
fn short_times(delays: usize, criticalities: usize, lent: Lengths) -> Option<u32>
    ensures number { table_number result ≡ short_times delays criticalities lent.delay lent.criticality }
    ensures named { Named result }
{
    if lent.delay < delays {
        return Some(9);
    }
    if lent.criticality < criticalities {
        return Some(10);
    }
    None
}

// The lowest of all tables.
fn lowest_short(
    counts: JobCounts,
    delays: usize,
    criticalities: usize,
    lent: Lengths,
) -> Option<u32>
    requires { (counts.nodes ≤ nodes_most) × (counts.nets ≤ nets_most) }
    ensures number { let first = lowest_short counts.nodes counts.edges counts.nets counts.sinks lent.kind lent.capacity
        lent.first_edge lent.edge_target lent.source lent.first_sink lent.sink in
        table_number result ≡ lowest_of_nine first (short_times delays criticalities lent.delay lent.criticality) }
    ensures named { Named result }
{
    short_table(counts, lent).or(short_times(delays, criticalities, lent))
}

// This many entries of a table that only timed jobs have.
fn if_timed(timed: bool, count: usize) -> usize
    ensures { result ≡ choose timed count 0 }
{
    if timed { count } else { 0 }
}

// Writes the job that was read into the tables that were lent, or names the lowest that is too short for it. A timed job that exceeds its
// bounds is refused after that.
// The tables that are written stay loose slices, here and in read_job, for the reason that copy.rt gives at JobRead.
fn store_job(
    counts: JobCounts,
    read: &JobRead,
    kind: &mut [u8],
    capacity: &mut [u8],
    first_edge: &mut [u32],
    edge_target: &mut [u16],
    source: &mut [u16],
    first_sink: &mut [u32],
    sink: &mut [u16],
    delay: &mut [u16],
    criticality: &mut [u8],
) -> Result<JobCounts, ReadRefusal>
    requires room_for_all { RoomForAll read.now.kind.now read.now.capacity.now read.now.first_edge.now read.now.edge_target.now
        read.now.source.now read.now.first_sink.now read.now.sink.now read.now.delay.now read.now.criticality.now }
    requires counts_within { CountsWithin counts.nodes counts.edges counts.nets × (counts.sinks ≤ sinks_most) }
    ensures { let job = job_taken counts read.now.kind.now read.now.capacity.now read.now.first_edge.now
        read.now.edge_target.now read.now.source.now read.now.first_sink.now read.now.sink.now
        read.now.delay.now read.now.criticality.now in
        let tables = tables_of kind.old capacity.old first_edge.old edge_target.old
        source.old first_sink.old sink.old delay.old criticality.old in
        let left = tables_of kind.new capacity.new first_edge.new edge_target.new
        source.new first_sink.new sink.new delay.new criticality.new in
        read_reply_of result left ≡ stored_reply job tables }
{
    let terms = counts.terms;
    let delays_due = if_timed(terms.timed, counts.nodes);
    let criticalities_due = if_timed(terms.timed, counts.sinks);
    let lent = Lengths {
        kind: kind.len(),
        capacity: capacity.len(),
        first_edge: first_edge.len(),
        edge_target: edge_target.len(),
        source: source.len(),
        first_sink: first_sink.len(),
        sink: sink.len(),
        delay: delay.len(),
        criticality: criticality.len(),
    };
    if let Some(table) = lowest_short(counts, delays_due, criticalities_due, lent) {
        return Err(ReadRefusal::ShortTable(table));
    }
    if job::exceeds(counts.nodes, terms) {
        return Err(ReadRefusal::TooLarge {
            nodes: counts.nodes,
            limit: terms.limit,
        });
    }
    copy::copy_block(counts, read, kind, capacity, first_edge, edge_target);
    copy::copy_nets(counts, read, source, first_sink, sink);
    copy::copy_times(delays_due, criticalities_due, read, delay, criticality);
    Ok(counts)
}

// Reads a job text into the nine tables, each of which may be longer than the job needs. Delays and criticalities are written only for a
// timed job.
pub fn read_job(
    text: &[u8],
    kind: &mut [u8],
    capacity: &mut [u8],
    first_edge: &mut [u32],
    edge_target: &mut [u16],
    source: &mut [u16],
    first_sink: &mut [u32],
    sink: &mut [u16],
    delay: &mut [u16],
    criticality: &mut [u8],
) -> Result<JobCounts, ReadRefusal>
    ensures answers { let tables = tables_of kind.old capacity.old first_edge.old edge_target.old
        source.old first_sink.old sink.old delay.old criticality.old in
        let left = tables_of kind.new capacity.new first_edge.new edge_target.new
        source.new first_sink.new sink.new delay.new criticality.new in
        read_reply_of result left ≡ read_reply text.now tables }
{
    let mut kinds = [0u8; NODES_MOST];
    let mut capacities = [0u8; NODES_MOST];
    let mut first_edges = [0u32; FIRST_EDGES_MOST];
    let mut edge_targets = [0u16; EDGES_MOST];
    let mut sources = [0u16; NETS_MOST];
    let mut first_sinks = [0u32; FIRST_SINKS_MOST];
    let mut sinks_read = [0u16; SINKS_MOST];
    let mut delays = [0u16; NODES_MOST];
    let mut criticalities = [0u8; SINKS_MOST];
    let counts = reader::read_lines(
        text,
        &mut kinds,
        &mut capacities,
        &mut first_edges,
        &mut edge_targets,
        &mut sources,
        &mut first_sinks,
        &mut sinks_read,
        &mut delays,
        &mut criticalities,
    )?;
    let read = JobRead {
        kind: &kinds,
        capacity: &capacities,
        first_edge: &first_edges,
        edge_target: &edge_targets,
        source: &sources,
        first_sink: &first_sinks,
        sink: &sinks_read,
        delay: &delays,
        criticality: &criticalities,
    };
    store_job(
        counts,
        &read,
        kind,
        capacity,
        first_edge,
        edge_target,
        source,
        first_sink,
        sink,
        delay,
        criticality,
    )
}

// A text of a sound log: its parts one after the other, which are counted, and written if the buffer has room.
fn fill_text(
    style: Style,
    source: &[u16],
    log: &[u32],
    latest: &Latest,
    found: SoundLog,
    buffer: &mut [u8],
) -> u64
    requires log_tested { (length source.now ≤ nets_most) × LogTested log.now found.iteration found.turns }
    requires latest_places { LatestPlaces log.now latest.now.from latest.now.to }
    ensures { Filled 0 (text_in style source.now (decode log.now)) buffer.old buffer.new result }
{
    let at = parts::fill_head(style, found, buffer);
    let next = branches::fill_branches(style, log, source.len(), latest, buffer, at);
    parts::fill_tail(style, source, buffer, next)
}

// Writes a text of a sound log, unless the buffer is shorter than it.
fn write_text(
    style: Style,
    source: &[u16],
    log: &[u32],
    found: SoundLog,
    buffer: &mut [u8],
) -> Result<usize, WriteRefusal>
    requires { (length source.now ≤ nets_most) × LogTested log.now found.iteration found.turns }
    ensures { write_reply_of result buffer.new
        ≡ text_reply (text_in style source.now (decode log.now)) buffer.old }
{
    let latest = latest::latest_records(log);
    let needed = fill_text(style, source, log, &latest, found, &mut []);
    if (buffer.len() as u64) < needed {
        return Err(WriteRefusal::ShortBuffer(needed));
    }
    Ok(fill_text(style, source, log, &latest, found, buffer) as usize)
}

// Writes either text of a log, after the writer's tests of table 5 and of the log.
pub fn write_style(
    style: Style,
    source: &[u16],
    log: &[u32],
    buffer: &mut [u8],
) -> Result<usize, WriteRefusal>
    ensures answers { write_reply_of result buffer.new
        ≡ style_reply style source.now log.now buffer.old }
{
    if !job::sources_sound(NODES_MOST, source) {
        return Err(WriteRefusal::BadTable(5));
    }
    let found = log_check::check_log(&joins::first_marks(source), NODES_MOST, log)?;
    write_text(style, source, log, found, buffer)
}

// Writes the routes text of a log: its last record's iteration with the turn count, each net's branches of its latest
// records, and the nets of table 5 that are joined into another.
pub fn write_routes(source: &[u16], log: &[u32], buffer: &mut [u8]) -> Result<usize, WriteRefusal>
    ensures answers { write_reply_of result buffer.new
        ≡ write_reply source.now log.now buffer.old }
{
    write_style(Style::Lines, source, log, buffer)
}

// Writes the same branches as a picture in the DOT language of Graphviz.
pub fn write_dot(source: &[u16], log: &[u32], buffer: &mut [u8]) -> Result<usize, WriteRefusal>
    ensures answers { write_reply_of result buffer.new
        ≡ dot_reply source.now log.now buffer.old }
{
    write_style(Style::Picture, source, log, buffer)
}
