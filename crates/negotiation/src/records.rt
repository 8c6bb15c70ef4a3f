// Writing a turn's record to the log.
ghost use Rattle.std.specs.Prelude.{◌++◌, ◌≡◌, ◌+◌, ◌^◌, ◌≤◌, ◌<◌, length, take, drop};
ghost use Rattle.negotiation.specs.Records.{record_of, words};
ghost use Rattle.job.specs.Steps.{AllBelow};

// A cost is logged in two words of 32 bits.
const HALF: u64 = 4294967296;

// Copies the path at the beginning of the work slice to the log.
fn copy_path(work: &[u64], count: usize, log: &mut [u32], at: usize)
    requires count_in_bounds { (count ≤ length work.now) × (at + count ≤ length log.old) }
    requires all_below { AllBelow (2 ^ 32) (take count work.now) }
    ensures { let old = log.old in
        log.new ≡ take at old ++ (take count work.now ++ drop (at + count) old) }
{
    for k in 0..count {
        log[at + k] = work[k] as u32;
    }
}

// Writes the record of a turn whose path stands at the beginning of the work slice.
// Eight parameters: the numbers are a record's words, as the definition `record_of` takes them, and go together nowhere else.
pub fn write_record(
    log: &mut [u32],
    at: usize,
    iteration: u32,
    net: u32,
    sink: u32,
    cost: u64,
    work: &[u64],
    count: usize,
)
    requires count_in_bounds { (count ≤ length work.now) × (at + (6 + count) ≤ length log.old) × (count < 2 ^ 32) }
    requires all_below { AllBelow (2 ^ 32) (take count work.now) }
    ensures { let old = log.old in
        let turn = record_of iteration net sink cost (take count work.now) in
        log.new ≡ take at old ++ (words turn ++ drop (at + (6 + count)) old) }
{
    log[at] = iteration;
    log[at + 1] = net;
    log[at + 2] = sink;
    log[at + 3] = (cost % HALF) as u32;
    log[at + 4] = (cost / HALF) as u32;
    log[at + 5] = count as u32;
    copy_path(work, count, log, at + 6);
}
