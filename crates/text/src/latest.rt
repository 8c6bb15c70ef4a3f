// Where the latest records of each net stand in a sound log.
ghost use Rattle.std.specs.Prelude.{not, ◌≡◌, ◌<◌, eqb, length, get_or};
ghost use Rattle.price.specs.Test.{either};
ghost use Rattle.job.specs.Tables.{nets_most};
ghost use Rattle.text.specs.WriteSteps.{AllSound, LatestPlaces, LatestWords};

use crate::log_check;
use job::NETS_MOST;

// For each net the place of the first record of its latest iteration and the place behind the last one, both 0 if it has none.
#[derive(Drop)]
pub struct Latest {
    pub from: [usize; NETS_MOST],
    pub to: [usize; NETS_MOST],
}

impl Latest {
    // The words of the log between a net's two places.
    pub fn of<'a>(&self, log: &'a [u32], net: usize) -> &'a [u32]
        requires { (net < nets_most) × LatestPlaces log.now self.now.from self.now.to }
        ensures { LatestWords log.now net result.now }
    {
        &log[self.from[net]..self.to[net]]
    }
}

// The record at this place is the first of its net's latest iteration so far: the net has no records between its two places, or they
// are of another iteration.
fn begins_anew(log: &[u32], at: usize, from: usize, to: usize) -> bool
    requires { (from < length log.now) × (at < length log.now) }
    ensures { result ≡ either (eqb to 0) (not (eqb (get_or log.now from 0) (get_or log.now at 0))) }
{
    to == 0 || log[from] != log[at]
}

// Iterations never fall in a sound log: every record of a net between its places is of its latest iteration.
pub fn latest_records(log: &[u32]) -> Latest
    requires { AllSound log.now }
    ensures { LatestPlaces log.now result.from result.to }
{
    // Made where it stands: two lists that are put together at the end would be copied.
    let mut latest = Latest {
        from: [0; NETS_MOST],
        to: [0; NETS_MOST],
    };
    let mut at = 0;
    // A record's length stands in it: the next place is known only at the record.
    while at < log.len() {
        let record = log_check::record_at(log, at);
        let net = record.net as usize;
        if begins_anew(log, at, latest.from[net], latest.to[net]) {
            latest.from[net] = at;
        }
        latest.to[net] = record.end;
        at = record.end;
    }
    latest
}
