// The branches of a sound log, in either style: each net's in order, from its latest records. If the buffer lacks room, they are
// only counted.
ghost use Rattle.std.specs.Prelude.{◌≤◌};
ghost use Rattle.negotiation.specs.Records.{decode};
ghost use Rattle.job.specs.Tables.{nets_most};
ghost use Rattle.text.specs.Routes.{steps, record_branches, route_branches};
ghost use Rattle.text.specs.Dot.{style_text};
ghost use Rattle.text.specs.WriteSteps.{Filled, AllSound, own_records, LatestPlaces};

use crate::latest::Latest;
use crate::{Style, log_check, parts};

// The steps of a net's path. Apart, so that the loop over the records keeps its places in registers.
#[inline(never)]
fn fill_steps(style: Style, net: u32, path: &[u32], buffer: &mut [u8], start: u64) -> u64
    ensures { Filled start (style_text style (steps net path.now)) buffer.old buffer.new result }
{
    let mut next = start;
    for k in 1..path.len() {
        next = parts::fill_branch(style, net, path[k - 1], path[k], buffer, next);
    }
    next
}

// The branches of a net's records in a sound log.
fn fill_records(style: Style, log: &[u32], net: u32, buffer: &mut [u8], start: u64) -> u64
    requires { AllSound log.now }
    ensures { let bytes = style_text style (record_branches (own_records net (decode log.now))) in
        Filled start bytes buffer.old buffer.new result }
{
    let mut next = start;
    let mut at = 0;
    // A record's length stands in it: the next place is known only at the record.
    while at < log.len() {
        let record = log_check::record_at(log, at);
        if record.net == net {
            next = fill_steps(style, net, record.path, buffer, next);
        }
        at = record.end;
    }
    next
}

// The branches of the first nets, from their latest records.
pub fn fill_branches(
    style: Style,
    log: &[u32],
    nets: usize,
    latest: &Latest,
    buffer: &mut [u8],
    start: u64,
) -> u64
    requires { (nets ≤ nets_most) × LatestPlaces log.now latest.now.from latest.now.to }
    ensures { let bytes = style_text style (route_branches nets (decode log.now)) in
        Filled start bytes buffer.old buffer.new result }
{
    let mut next = start;
    for net in 0..nets {
        next = fill_records(style, latest.of(log, net), net as u32, buffer, next);
    }
    next
}
