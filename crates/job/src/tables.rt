// Tests of tables 5 to 10, and of all tables together.
ghost use Rattle.std.specs.Prelude.{true, [], ◌≡◌, ℕ, ◌≤◌, ◌<◌, ltb, length, get_or};
ghost use Rattle.price.specs.Bounds.{nodes_most};
ghost use Rattle.price.specs.Lists.{neighbours};
ghost use Rattle.search.specs.Block.{block_in};
ghost use Rattle.search.specs.Replies.{tested};
ghost use Rattle.search.specs.Tables.{faulty_table};
ghost use Rattle.search.specs.Turn.{weighed_congestion};
ghost use Rattle.search.specs.Replies.{faulty_with_delays};
ghost use Rattle.job.specs.Job.{job_in};
ghost use Rattle.job.specs.Steps.{AllBelow, Stored, sinks_free};
ghost use Rattle.job.specs.Tables.{nets_most, sources_sound, first_sinks_sound, net_sound, sinks_sound, faulty_nets};
ghost use Rattle.job.specs.Tables.{criticalities_sound, faulty_times, faulty_job};

use crate::{JobTables, NETS_MOST, job_terms, pins};
use price::{CRITICALITY_MOST, Weighting};
use search::{BadTable, NODES_MOST, Prices, Refusal, SINKS_MOST, Tables};

// Table 5: 1 to 512 nets, each source below n.
#[tactic(auto, unfolding(crate::specs::Tables::sources_sound))]
pub fn sources_sound(n: usize, source: &[u16]) -> bool
    ensures { result ≡ sources_sound n source.now }
{
    !source.is_empty()
        && source.len() <= NETS_MOST
        && source.iter().all(|from| (*from as usize) < n)
}

// Table 6 strictly rises.
fn rises(first_sink: &[u32]) -> bool
    ensures { result ≡ neighbours ltb first_sink.now }
{
    for i in 1..first_sink.len() {
        if first_sink[i] <= first_sink[i - 1] {
            return false;
        }
    }
    true
}

// Table 6: "nets + 1 entries: begins with 0, strictly rises, ends with table 7's length."
#[tactic(auto, unfolding(crate::specs::Tables::first_sinks_sound))]
fn first_sinks_sound(nets: usize, places: usize, first_sink: &[u32]) -> bool
    requires { nets ≤ nets_most }
    ensures { result ≡ first_sinks_sound nets places first_sink.now }
{
    first_sink.len() == nets + 1
        && first_sink[0] == 0
        && rises(first_sink)
        && first_sink[nets] as usize == places
}

// Marks each sink, and finds one that is no node or marked already.
fn mark_sinks(n: usize, sinks: &[u16], seen: &mut [u8]) -> bool
    requires { n ≤ length seen.old }
    ensures value { result ≡ sinks_free n sinks.now seen.old }
    ensures stored { result ≡ true → Stored 1 sinks.now seen.old seen.new }
{
    for sink in sinks {
        let s = *sink as usize;
        if n <= s || seen[s] != 0 {
            return false;
        }
        seen[s] = 1;
    }
    true
}

// Takes the sinks' marks away again.
fn unmark_sinks(sinks: &[u16], seen: &mut [u8])
    requires { AllBelow (length seen.old) sinks.now }
    ensures { Stored 0 sinks.now seen.old seen.new }
{
    for sink in sinks {
        seen[*sink as usize] = 0;
    }
}

// The sinks of a net: each a node, none twice, none its source. `seen` has no mark before, and none after where they are sound.
fn net_sound(n: usize, from: u16, sinks: &[u16], seen: &mut [u8]) -> bool
    requires n_in_bounds { (n ≤ length seen.old) × (from < n) }
    requires by_index { (v : ℕ) → get_or seen.old v 0 ≡ 0 }
    ensures value { result ≡ net_sound n from sinks.now }
    ensures v_after { result ≡ true → (v : ℕ) → get_or seen.new v 0 ≡ 0 }
{
    let s = from as usize;
    seen[s] = 1;
    if !mark_sinks(n, sinks, seen) {
        return false;
    }
    unmark_sinks(sinks, seen);
    seen[s] = 0;
    true
}

// Table 7, once tables 5 and 6 keep their rules.
#[tactic(auto, unfolding(crate::specs::Tables::sinks_sound))]
fn sinks_sound(n: usize, source: &[u16], first_sink: &[u32], sink: &[u16]) -> bool
    requires n_le_nodes_most { n ≤ nodes_most }
    requires source_value { sources_sound n source.now ≡ true }
    requires first_sink_value { first_sinks_sound (length source.now) (length sink.now) first_sink.now ≡ true }
    ensures { result ≡ sinks_sound n source.now first_sink.now sink.now }
{
    if SINKS_MOST < sink.len() {
        return false;
    }
    let mut seen = [0u8; NODES_MOST];
    for i in 0..source.len() {
        let from = first_sink[i] as usize;
        let to = first_sink[i + 1] as usize;
        if !net_sound(n, source[i], &sink[from..to], &mut seen) {
            return false;
        }
    }
    true
}

// Tables 5 to 8 keep their rules, or the lowest that doesn't is refused.
#[tactic(auto, unfolding(crate::specs::Tables::faulty_nets))]
fn faulty_nets(job: &JobTables) -> Result<(), BadTable>
    requires { length job.now.block.kind.now ≤ nodes_most }
    ensures { let j = job.now in
        result ≡ tested (faulty_nets j.block.kind.now j.source.now j.first_sink.now j.sink.now j.terms) }
{
    let kind = job.block.kind;
    let n = kind.len();
    if !sources_sound(n, job.source) || !pins::source_pins(kind, job.source) {
        return Err(BadTable { table: 5 });
    }
    if !first_sinks_sound(job.source.len(), job.sink.len(), job.first_sink) {
        return Err(BadTable { table: 6 });
    }
    if !sinks_sound(n, job.source, job.first_sink, job.sink) || !pins::sink_pins(kind, job.sink) {
        return Err(BadTable { table: 7 });
    }
    if !job_terms::terms_sound(job.terms) {
        return Err(BadTable { table: 8 });
    }
    Ok(())
}

// Tables 1 to 4 keep their rules, and the delays theirs where they are weighed, or the lowest table that doesn't is refused: the cheapest
// path tests them first, and a work slice of one entry is too short for any job.
fn faulty_with_delays(tables: &Tables, weighting: Weighting, delay: &[u16]) -> Result<(), BadTable>
    ensures { result ≡ tested (faulty_with_delays (block_in tables.now) (weighed_congestion weighting delay.now 0 [] [])) }
{
    let prices = Prices {
        weighting,
        delay,
        factor: 0,
        history: &[],
        others: &[],
    };
    let Err(refusal) = search::cheapest_path(tables, &prices, &mut [0; 1], &[], &[]) else {
        return Ok(());
    };
    match refusal {
        Refusal::BadTable(table) => Err(BadTable { table }),
        Refusal::ShortWork(_) => Ok(()),
        Refusal::BadNumber(_) => Ok(()),
        Refusal::TooLarge(_) => Ok(()),
    }
}

// Tables 1 to 4 keep their rules, or the lowest that doesn't is refused.
pub fn faulty_block(tables: &Tables) -> Result<(), BadTable>
    ensures { result ≡ tested (faulty_table (block_in tables.now)) }
{
    let untimed = Weighting {
        timed: false,
        criticality: 0,
    };
    faulty_with_delays(tables, untimed, &[])
}

// Table 10: a criticality a sink, each 0 to 9.
#[tactic(auto, unfolding(crate::specs::Tables::criticalities_sound))]
fn criticalities_sound(sinks: usize, criticality: &[u8]) -> bool
    ensures { result ≡ criticalities_sound sinks criticality.now }
{
    criticality.len() == sinks && criticality.iter().all(|c| *c as u32 <= CRITICALITY_MOST)
}

// Tables 9 and 10 of a timed job keep their rules, or the lower that doesn't is refused, once tables 1 to 4 keep theirs.
#[tactic(auto, unfolding(crate::specs::Tables::faulty_times))]
fn faulty_times(job: &JobTables) -> Result<(), BadTable>
    requires { faulty_table (block_in job.now.block) ≡ 0 }
    ensures { let j = job.now in
        let n = length j.block.kind.now in
        result ≡ tested (faulty_times j.terms n (length j.sink.now) j.delay.now j.criticality.now) }
{
    if !job.terms.timed {
        return Ok(());
    }
    let weighed = Weighting {
        timed: true,
        criticality: 0,
    };
    faulty_with_delays(&job.block, weighed, job.delay)?;
    if !criticalities_sound(job.sink.len(), job.criticality) {
        return Err(BadTable { table: 10 });
    }
    Ok(())
}

// Every table keeps its rule, or the lowest that doesn't is refused. Tables 9 and 10 are read only in timed jobs.
pub fn faulty_job(job: &JobTables) -> Result<(), BadTable>
    ensures { result ≡ tested (faulty_job (job_in job.now)) }
{
    faulty_block(&job.block)?;
    faulty_nets(job)?;
    faulty_times(job)
}
