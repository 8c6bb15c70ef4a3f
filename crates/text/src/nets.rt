// The S and T lines.
// The tables that are written stay loose slices, for the reason that copy.rt gives at JobRead.
ghost use Rattle.std.specs.Prelude.{List, [], ◌≡◌, ℕ, ◌+◌, ◌-◌, ◌≤◌, ◌<◌, ltb, eqb, length, drop};
ghost use Rattle.search.specs.Replies.{sinks_most};
ghost use Rattle.price.specs.Bounds.{nodes_most};
ghost use Rattle.price.specs.Test.{both, either};
ghost use Rattle.job.specs.Tables.{nets_most, source_kind, sink_kind};
ghost use Rattle.text.specs.JobText.{source_line, sink_line, of_kind, taking, net_lists, net_line, net_lines};
ghost use Rattle.text.specs.Steps.{pin_at, PinPlace, three_of, sink_at, SinkPlace, Marked, nets_at, NetKept, SourceAdded, SinkAdded};
ghost use Rattle.text.specs.Steps.{Within, net_line_at, KeptAfter, nets_read_at, NetsEnd};

use crate::fields::LineFields;
use crate::head::Counts;
use crate::place::{LineFault, LineRefusal, Place};
use crate::{bounds, fields};
use search::{NODES_MOST, SINKS_MOST};

// The node of an S line and the place after it.
#[derive(Clone, Copy)]
pub struct Pin {
    pub node: u16,
    pub next: usize,
}

// The node and the criticality of a T line and the place after it. In an untimed job the criticality is 0.
#[derive(Clone, Copy)]
pub struct Sink {
    pub node: u16,
    pub criticality: u8,
    pub next: usize,
}

// How far the nets are read: the next place and its line, nets and sinks so far, and the sinks before the last net's own.
#[derive(Clone, Copy)]
pub struct NetCursor {
    pub at: usize,
    pub line: usize,
    pub nets: usize,
    pub sinks: usize,
    pub first: usize,
}

// The S line of net i.
fn source_line(
    text: &[u8],
    at: usize,
    kind: &[u8],
    counts: Counts,
    i: usize,
) -> Result<Pin, LineFault>
    requires { (counts.nodes ≤ nodes_most) × (counts.nodes ≤ length kind.now) }
    ensures value { let read = source_line counts.nodes counts.nets i (drop at text.now) in
        pin_at i text.now result ≡ of_kind source_kind kind.now read }
    ensures pin_place { PinPlace counts.nodes at text.now result }
{
    let Counts { nodes, nets, .. } = counts;
    let Some(
        LineFields {
            first,
            second,
            next,
            ..
        },
    ) = fields::line_fields(text, at, b'S', 2)
    else {
        return Err(LineFault::Malformed);
    };
    if nets <= first as usize || nodes <= second as usize {
        return Err(LineFault::BeyondBounds);
    }
    if first as usize != i || !job::source_kind(kind[second as usize]) {
        return Err(LineFault::WrongOrder);
    }
    Ok(Pin {
        node: second as u16,
        next,
    })
}

// A T line of net i after this many sinks. The net's pins so far bear its stamp. An untimed line has no criticality, which counts as 0.
// Eight parameters: one function calls this, so that a struct of some of them would be made for one call.
fn sink_line(
    text: &[u8],
    at: usize,
    kind: &[u8],
    counts: Counts,
    i: usize,
    count: usize,
    seen: &[u16],
    stamp: u16,
) -> Result<Sink, LineFault>
    requires { (counts.nodes ≤ nodes_most) × (counts.nodes ≤ length seen.now) × (counts.nodes ≤ length kind.now) }
    ensures by_index { (pins : List ℕ) → Marked counts.nodes stamp seen.now pins
        → sink_at i text.now result
        ≡ of_kind sink_kind kind.now
        (taking three_of (sink_line counts.terms.timed counts.nodes counts.nets i pins count (drop at text.now))) }
    ensures sink_place { SinkPlace counts.nodes at text.now result }
{
    let Counts {
        nodes,
        nets,
        terms,
        ..
    } = counts;
    let timed = terms.timed;
    let numbers = fields::one_of_two(timed, 3, 2) as usize;
    let Some(
        LineFields {
            first,
            second,
            third,
            next,
            ..
        },
    ) = fields::line_fields(text, at, b'T', numbers)
    else {
        return Err(LineFault::Malformed);
    };
    let criticality = fields::one_of_two(timed, third, 0);
    if nets <= first as usize
        || nodes <= second as usize
        || bounds::CRITICALITY_MOST < criticality
    {
        return Err(LineFault::BeyondBounds);
    }
    if first as usize != i
        || seen[second as usize] == stamp
        || SINKS_MOST <= count
        || !job::sink_kind(kind[second as usize])
    {
        return Err(LineFault::WrongOrder);
    }
    Ok(Sink {
        node: second as u16,
        criticality: criticality as u8,
        next,
    })
}

// Reads an S line into tables 5 and 6, and stamps the source.
fn add_source(
    text: &[u8],
    c: NetCursor,
    kind: &[u8],
    counts: Counts,
    source: &mut [u16],
    first_sink: &mut [u32],
    seen: &mut [u16],
) -> Result<NetCursor, LineFault>
    requires at_in_bounds { (c.at ≤ length text.now) × (c.line ≤ c.at + 1) × (counts.nodes ≤ nodes_most) × (counts.nets ≤ nets_most)
        × (c.sinks ≤ sinks_most) }
    requires nets_lt_nets { (c.nets < counts.nets) × (counts.nets ≤ length source.old) × (counts.nets ≤ length first_sink.old)
        × (counts.nodes ≤ length seen.old) × (counts.nodes ≤ length kind.now) }
    ensures { let read = of_kind source_kind kind.now (source_line counts.nodes counts.nets c.nets (drop c.at text.now)) in
        SourceAdded counts.nodes counts.nets text.now c result source.old first_sink.old seen.old
        source.new first_sink.new seen.new read }
{
    let pin = source_line(text, c.at, kind, counts, c.nets)?;
    source[c.nets] = pin.node;
    first_sink[c.nets] = c.sinks as u32;
    seen[pin.node as usize] = (c.nets + 1) as u16;
    Ok(NetCursor {
        at: pin.next,
        line: c.line + 1,
        nets: c.nets + 1,
        sinks: c.sinks,
        first: c.sinks,
    })
}

// Reads a T line into tables 7 and 10, and stamps the sink.
fn add_sink(
    text: &[u8],
    c: NetCursor,
    kind: &[u8],
    counts: Counts,
    sink: &mut [u16],
    criticality: &mut [u8],
    seen: &mut [u16],
) -> Result<NetCursor, LineFault>
    requires at_in_bounds { (c.at ≤ length text.now) × (c.line ≤ c.at + 1) × (counts.nodes ≤ nodes_most) × (counts.nets ≤ nets_most) }
    requires le_nets { (1 ≤ c.nets) × (c.nets ≤ counts.nets) × (sinks_most ≤ length sink.old) × (sinks_most ≤ length criticality.old)
        × (counts.nodes ≤ length seen.old) × (counts.nodes ≤ length kind.now) }
    ensures { (pins : List ℕ) → Marked counts.nodes c.nets seen.old pins
        → SinkAdded counts.nodes counts.nets text.now c result sink.old criticality.old seen.old
        sink.new criticality.new seen.new (of_kind sink_kind kind.now
        (taking three_of (sink_line counts.terms.timed counts.nodes counts.nets (c.nets - 1) pins c.sinks (drop c.at text.now)))) }
{
    let read = sink_line(
        text,
        c.at,
        kind,
        counts,
        c.nets - 1,
        c.sinks,
        seen,
        c.nets as u16,
    )?;
    sink[c.sinks] = read.node;
    criticality[c.sinks] = read.criticality;
    seen[read.node as usize] = c.nets as u16;
    Ok(NetCursor {
        at: read.next,
        line: c.line + 1,
        nets: c.nets,
        sinks: c.sinks + 1,
        first: c.first,
    })
}

// One line of the nets.
fn net_line(
    text: &[u8],
    c: NetCursor,
    kind: &[u8],
    counts: Counts,
    source: &mut [u16],
    first_sink: &mut [u32],
    sink: &mut [u16],
    criticality: &mut [u8],
    seen: &mut [u16],
) -> Result<NetCursor, LineFault>
    requires { NetKept counts.nodes counts.nets text.now c source.old first_sink.old sink.old criticality.old seen.old
        × (c.at < length text.now) × (counts.nodes ≤ length kind.now) }
    ensures criticality_after { let before = nets_at c source.old first_sink.old sink.old criticality.old in
        net_line_at text.now result source.new first_sink.new sink.new criticality.new
        ≡ net_line counts.terms.timed kind.now counts.nodes counts.nets before (drop c.at text.now) }
    ensures kept_after { KeptAfter counts.nodes counts.nets text.now c result
        source.new first_sink.new sink.new criticality.new seen.new }
{
    match text[c.at] {
        b'S' if source_due(c, counts.nets) => {
            add_source(text, c, kind, counts, source, first_sink, seen)
        }
        b'T' if 1 <= c.nets => { add_sink(text, c, kind, counts, sink, criticality, seen) }
        _ => Err(LineFault::Malformed),
    }
}

// Another net is due: the first, or one after a net that has a sink.
fn source_due(c: NetCursor, nets: usize) -> bool
    ensures { result ≡ both (ltb c.nets nets) (either (eqb c.nets 0) (ltb c.first c.sinks)) }
{
    c.nets < nets && (c.nets == 0 || c.first < c.sinks)
}

// Reads all nets to the end of the text into tables 5, 6, 7 and 10.
pub fn read_nets(
    text: &[u8],
    from: Place,
    kind: &[u8],
    counts: Counts,
    source: &mut [u16],
    first_sink: &mut [u32],
    sink: &mut [u16],
    criticality: &mut [u8],
) -> Result<usize, LineRefusal>
    requires from_in_bounds { Within text.now from × (counts.nodes ≤ nodes_most) × (counts.nets ≤ nets_most)
        × (counts.nodes ≤ length kind.now) }
    requires nets_in_bounds { (counts.nets ≤ length source.old) × (counts.nets + 1 ≤ length first_sink.old) × (sinks_most ≤ length sink.old)
        × (sinks_most ≤ length criticality.old) }
    ensures criticality_after { let bytes = drop from.at text.now in
        (end : ℕ) × (nets_read_at counts.nets end result source.new first_sink.new sink.new criticality.new
        ≡ net_lines (length bytes) counts.terms.timed kind.now counts.nodes counts.nets (net_lists [] [] [] []) from.line bytes) }
    ensures nets_end { NetsEnd counts.nets result first_sink.new }
{
    let nets = counts.nets;
    let mut seen = [0u16; NODES_MOST];
    let mut c = NetCursor {
        at: from.at,
        line: from.line,
        nets: 0,
        sinks: 0,
        first: 0,
    };
    // No `for`: a line's length is known only once it is read.
    while c.at < text.len() {
        c = match net_line(
            text,
            c,
            kind,
            counts,
            source,
            first_sink,
            sink,
            criticality,
            &mut seen,
        ) {
            Ok(next) => next,
            Err(fault) => {
                return Err(LineRefusal {
                    fault,
                    line: c.line,
                });
            }
        };
    }
    if c.nets != nets || c.sinks <= c.first {
        return Err(LineRefusal {
            fault: LineFault::Malformed,
            line: c.line,
        });
    }
    first_sink[nets] = c.sinks as u32;
    Ok(c.sinks)
}
