// Copying the tables of a job that was read over those that were lent.
ghost use Rattle.std.specs.Prelude.{◌+◌};
ghost use Rattle.text.specs.ReadSteps.{Fits, Over};

use crate::JobCounts;

// The tables of a job that was read, each with room for any job.
// Those that are written stay loose slices: with a struct of `&mut` slices the proof didn't close, since what they then hold isn't known.
#[derive(Clone, Copy)]
pub struct JobRead<'a> {
    pub kind: &'a [u8],
    pub capacity: &'a [u8],
    pub first_edge: &'a [u32],
    pub edge_target: &'a [u16],
    pub source: &'a [u16],
    pub first_sink: &'a [u32],
    pub sink: &'a [u16],
    pub delay: &'a [u16],
    pub criticality: &'a [u8],
}

// Copies tables 1 to 4.
pub fn copy_block(
    counts: JobCounts,
    read: &JobRead,
    kind: &mut [u8],
    capacity: &mut [u8],
    first_edge: &mut [u32],
    edge_target: &mut [u16],
)
    requires { Fits counts.nodes read.now.kind.now kind.old × Fits counts.nodes read.now.capacity.now capacity.old
        × Fits (counts.nodes + 1) read.now.first_edge.now first_edge.old × Fits counts.edges read.now.edge_target.now edge_target.old }
    ensures { Over counts.nodes read.now.kind.now kind.old kind.new
        × Over counts.nodes read.now.capacity.now capacity.old capacity.new
        × Over (counts.nodes + 1) read.now.first_edge.now first_edge.old first_edge.new
        × Over counts.edges read.now.edge_target.now edge_target.old edge_target.new }
{
    let nodes = counts.nodes;
    let edges = counts.edges;
    kind[..nodes].copy_from_slice(&read.kind[..nodes]);
    capacity[..nodes].copy_from_slice(&read.capacity[..nodes]);
    first_edge[..nodes + 1].copy_from_slice(&read.first_edge[..nodes + 1]);
    edge_target[..edges].copy_from_slice(&read.edge_target[..edges]);
}

// Copies tables 5 to 7.
pub fn copy_nets(
    counts: JobCounts,
    read: &JobRead,
    source: &mut [u16],
    first_sink: &mut [u32],
    sink: &mut [u16],
)
    requires { Fits counts.nets read.now.source.now source.old × Fits (counts.nets + 1) read.now.first_sink.now first_sink.old
        × Fits counts.sinks read.now.sink.now sink.old }
    ensures { Over counts.nets read.now.source.now source.old source.new
        × Over (counts.nets + 1) read.now.first_sink.now first_sink.old first_sink.new
        × Over counts.sinks read.now.sink.now sink.old sink.new }
{
    let nets = counts.nets;
    let sinks = counts.sinks;
    source[..nets].copy_from_slice(&read.source[..nets]);
    first_sink[..nets + 1].copy_from_slice(&read.first_sink[..nets + 1]);
    sink[..sinks].copy_from_slice(&read.sink[..sinks]);
}

// Copies this many entries of tables 9 and 10.
pub fn copy_times(
    delays: usize,
    criticalities: usize,
    read: &JobRead,
    delay: &mut [u16],
    criticality: &mut [u8],
)
    requires { Fits delays read.now.delay.now delay.old × Fits criticalities read.now.criticality.now criticality.old }
    ensures { Over delays read.now.delay.now delay.old delay.new
        × Over criticalities read.now.criticality.now criticality.old criticality.new }
{
    delay[..delays].copy_from_slice(&read.delay[..delays]);
    criticality[..criticalities].copy_from_slice(&read.criticality[..criticalities]);
}
