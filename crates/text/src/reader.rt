// All lines of a job text, read into tables that have room for any job.
// The tables that are written stay loose slices, for the reason that copy.rt gives at JobRead.
ghost use Rattle.std.specs.Prelude.{◌≡◌, ◌≤◌, ℕ, length, drop};
ghost use Rattle.text.specs.JobText.{read_text};
ghost use Rattle.text.specs.Steps.{Within, NetsEnd};
ghost use Rattle.text.specs.ReadSteps.{EdgeRoom, NetTablesRoom, RoomForAll, CountsWithin};
ghost use Rattle.text.specs.ReadSteps.{body_after_nodes, edges_nets_at, body_after_head, body_at, job_at, JobPlace};

use crate::head::Counts;
use crate::place::{LineRefusal, Place};
use crate::{JobCounts, edges, head, nets, nodes};

// Edges and nets from this place on: the sink count.
fn read_edges_nets(
    text: &[u8],
    from: Place,
    kind: &[u8],
    counts: Counts,
    first_edge: &mut [u32],
    edge_target: &mut [u16],
    source: &mut [u16],
    first_sink: &mut [u32],
    sink: &mut [u16],
    criticality: &mut [u8],
) -> Result<usize, LineRefusal>
    requires counts_within { CountsWithin counts.nodes counts.edges counts.nets × Within text.now from × (counts.nodes ≤ length kind.now) }
    requires edge_room { EdgeRoom first_edge.old edge_target.old
        × NetTablesRoom source.old first_sink.old sink.old criticality.old }
    ensures criticality_after { (end : ℕ) × (edges_nets_at counts.nodes counts.edges counts.nets end result first_edge.new edge_target.new
        source.new first_sink.new sink.new criticality.new
        ≡ body_after_nodes counts.terms.timed kind.now counts.nodes counts.edges counts.nets from.line (drop from.at text.now)) }
    ensures nets_end { NetsEnd counts.nets result first_sink.new }
{
    let place = edges::read_edges(
        text,
        from,
        counts.nodes,
        counts.edges,
        first_edge,
        edge_target,
    )?;
    nets::read_nets(
        text,
        place,
        kind,
        counts,
        source,
        first_sink,
        sink,
        criticality,
    )
}

// The lines from the nodes on: the sink count.
fn read_body(
    text: &[u8],
    from: Place,
    counts: Counts,
    kind: &mut [u8],
    capacity: &mut [u8],
    first_edge: &mut [u32],
    edge_target: &mut [u16],
    source: &mut [u16],
    first_sink: &mut [u32],
    sink: &mut [u16],
    delay: &mut [u16],
    criticality: &mut [u8],
) -> Result<usize, LineRefusal>
    requires room_for_all { RoomForAll kind.old capacity.old first_edge.old edge_target.old
        source.old first_sink.old sink.old delay.old criticality.old }
    requires counts_within { CountsWithin counts.nodes counts.edges counts.nets × Within text.now from }
    ensures criticality_after { (end : ℕ) × (body_at counts.nodes counts.edges counts.nets end result kind.new capacity.new first_edge.new
        edge_target.new source.new first_sink.new sink.new
        delay.new criticality.new
        ≡ body_after_head counts.terms.timed counts.nodes counts.edges counts.nets from.line (drop from.at text.now)) }
    ensures nets_end { NetsEnd counts.nets result first_sink.new }
{
    let nodes = counts.nodes;
    let timed = counts.terms.timed;
    let place = nodes::read_nodes(text, from, nodes, timed, kind, capacity, delay)?;
    read_edges_nets(
        text,
        place,
        &kind[..nodes],
        counts,
        first_edge,
        edge_target,
        source,
        first_sink,
        sink,
        criticality,
    )
}

// The whole text.
pub fn read_lines(
    text: &[u8],
    kind: &mut [u8],
    capacity: &mut [u8],
    first_edge: &mut [u32],
    edge_target: &mut [u16],
    source: &mut [u16],
    first_sink: &mut [u32],
    sink: &mut [u16],
    delay: &mut [u16],
    criticality: &mut [u8],
) -> Result<JobCounts, LineRefusal>
    requires { RoomForAll kind.old capacity.old first_edge.old edge_target.old
        source.old first_sink.old sink.old delay.old criticality.old }
    ensures criticality_after { (end : ℕ) × (job_at end result kind.new capacity.new first_edge.new edge_target.new
        source.new first_sink.new sink.new delay.new criticality.new
        ≡ read_text text.now) }
    ensures job_place { JobPlace result }
{
    let head = head::read_head(text)?;
    let counts = head.counts;
    let sinks = read_body(
        text,
        head.place,
        counts,
        kind,
        capacity,
        first_edge,
        edge_target,
        source,
        first_sink,
        sink,
        delay,
        criticality,
    )?;
    Ok(JobCounts {
        nodes: counts.nodes,
        edges: counts.edges,
        nets: counts.nets,
        sinks,
        terms: counts.terms,
    })
}
