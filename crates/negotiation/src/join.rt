// Nets of one source are joined into the first of them.
ghost use Rattle.std.specs.Prelude.{map, true, ◌≡◌, List, ℕ, ◌+◌, ◌-◌, ◌≤◌, ◌<◌, length, get_or, take};
ghost use Rattle.search.specs.Replies.{sinks_most};
ghost use Rattle.job.specs.Join.{places_from, taking};
ghost use Rattle.negotiation.specs.JoinSteps.{Joinable, JoinRoom, nets_only, listed_count};
ghost use Rattle.negotiation.specs.JoinSteps.{with_listed, PlacesTaken, Placed, JoinedPlaces, JoinedTables};
ghost use Rattle.job.specs.Steps.{AllBelow};

use job::JobTables;
use search::{NODES_MOST, SINKS_MOST};

// Takes the places of table 7 from one to another, but for those whose sink is stamped already.
fn take_listed(
    sink: &[u16],
    from: usize,
    to: usize,
    stamp: u16,
    seen: &mut [u16],
    places: &mut [u16],
    start: usize,
) -> usize
    requires from_le_to { (from ≤ to) × (to ≤ length sink.now) × (length sink.now ≤ sinks_most) }
    requires all_below { AllBelow (length seen.old) sink.now }
    requires from_in_bounds { start + (to - from) ≤ length places.old }
    ensures { (before : List ℕ) → (taken : List ℕ)
        → PlacesTaken stamp sink.now before taken seen.old places.old start
        → PlacesTaken stamp sink.now before (taking sink.now taken (places_from from (to - from)))
        seen.new places.new result }
{
    let mut count = start;
    for p in from..to {
        let s = sink[p] as usize;
        if seen[s] != stamp {
            seen[s] = stamp;
            places[count] = p as u16;
            count += 1;
        }
    }
    count
}

// Takes the places that net k lists, where its source is that of `net`.
fn take_net(
    job: &JobTables,
    net: usize,
    k: usize,
    seen: &mut [u16],
    places: &mut [u16],
    start: usize,
) -> usize
    requires joinable { let j = job.now in Joinable j.source.now j.first_sink.now j.sink.now × JoinRoom j.sink.now seen.old places.old }
    requires net_in_bounds { let j = job.now in (net < length j.source.now) × (k < length j.source.now) }
    requires k_in_bounds { let j = job.now in
        get_or j.source.now k 0 ≡ get_or j.source.now net 0 → start + listed_count j.first_sink.now k ≤ length places.old }
    ensures { (before : List ℕ) → (taken : List ℕ)
        → PlacesTaken (net + 1) job.now.sink.now before taken seen.old places.old start
        → PlacesTaken (net + 1) job.now.sink.now before
        (with_listed job.now.source.now job.now.first_sink.now job.now.sink.now net k taken)
        seen.new places.new result }
{
    if job.source[k] != job.source[net] {
        return start;
    }
    let from = job.first_sink[k] as usize;
    let to = job.first_sink[k + 1] as usize;
    take_listed(job.sink, from, to, net as u16 + 1, seen, places, start)
}

// Takes the places of a net: those of all nets of its source where it is their first, else none. No net before the first has that source.
fn join_one(
    job: &JobTables,
    net: usize,
    seen: &mut [u16],
    places: &mut [u16],
    start: usize,
) -> usize
    requires joinable { let j = job.now in Joinable j.source.now j.first_sink.now j.sink.now × JoinRoom j.sink.now seen.old places.old }
    requires net_in_bounds { net < length job.now.source.now }
    requires placed { let j = job.now in Placed j.source.now j.first_sink.now j.sink.now seen.old places.old net start }
    ensures { let j = job.now in Placed j.source.now j.first_sink.now j.sink.now seen.new places.new (net + 1) result }
{
    if job::first_of(job.source, net) != net {
        return start;
    }
    let mut count = start;
    for k in net..job.source.len() {
        count = take_net(job, net, k, seen, places, count);
    }
    count
}

// The places of all nets, one net after the other, and where each net's begin. Answers how many there are.
fn join_nets(job: &JobTables, firsts: &mut [u32], places: &mut [u16]) -> usize
    requires joinable { let j = job.now in Joinable j.source.now j.first_sink.now j.sink.now }
    requires source_in_bounds { let j = job.now in
        (length j.source.now + 1 ≤ length firsts.old) × (length j.sink.now ≤ length places.old) }
    ensures { let j = job.now in
        let nets = nets_only j.source.now j.first_sink.now j.sink.now in
        JoinedPlaces nets firsts.new places.new result }
{
    let mut seen = [0u16; NODES_MOST];
    let mut count = 0;
    for net in 0..job.source.len() {
        firsts[net] = count as u32;
        count = join_one(job, net, &mut seen, places, count);
    }
    firsts[job.source.len()] = count as u32;
    count
}

// The entries of a table at the first places of a list, each of which is one of the table: what is read past its end doesn't matter.
fn gather<T: Copy>(table: &[T], places: &[u16], count: usize, entries: &mut [T])
    requires count_in_bounds { (count ≤ length places.now) × (count ≤ length entries.old) }
    requires all_below { AllBelow (length table.now) (take count places.now) }
    ensures { (other : T) → take count entries.new ≡ map (λ p. get_or table.now p other) (take count places.now) }
{
    for k in 0..count {
        let p = places[k] as usize;
        entries[k] = table[p];
    }
}

// Tables 6 and 7 of the joined nets, in a timed job table 10 too, each at the front of what is lent for it. Answers how many sinks there
// are.
pub fn joined_tables(
    job: &JobTables,
    firsts: &mut [u32],
    sinks: &mut [u16],
    criticalities: &mut [u8],
) -> usize
    requires joinable { let j = job.now in Joinable j.source.now j.first_sink.now j.sink.now }
    requires source_in_bounds { let j = job.now in
        (length j.source.now + 1 ≤ length firsts.old) × (length j.sink.now ≤ length sinks.old) }
    requires criticality_len { let j = job.now in
        (j.terms.timed ≡ true → length j.criticality.now ≡ length j.sink.now) × (length j.sink.now ≤ length criticalities.old) }
    ensures { let j = job.now in
        JoinedTables j.source.now j.first_sink.now j.sink.now j.criticality.now j.terms.timed firsts.new sinks.new
        criticalities.new result }
{
    let mut places = [0u16; SINKS_MOST];
    let count = join_nets(job, firsts, &mut places);
    gather(job.sink, &places, count, sinks);
    if job.terms.timed {
        gather(job.criticality, &places, count, criticalities);
    }
    count
}
