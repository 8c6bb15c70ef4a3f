// Whether every sink has a path from its source, before iteration 1.
ghost use Rattle.std.specs.Prelude.{◌≡◌, ◌*◌, ◌≤◌, length};
ghost use Rattle.job.specs.Job.{nodes};
ghost use Rattle.job.specs.Job.{job_in};
ghost use Rattle.negotiation.specs.Routable.{Routable};
ghost use Rattle.negotiation.specs.Steps.{SameFrom, missing, reach_numbers};

use crate::flood;
use job::JobTables;
use search::NODES_MOST;

// A net, and the place of its first sink without a path.
#[derive(Clone, Copy, Debug, PartialEq, Eq)]
pub struct Missing {
    pub net: u32,
    pub place: u32,
}

// The first net with a sink without a path, and that sink's place.
pub fn unreachable(job: &JobTables, work: &mut [u64]) -> Option<Missing>
    requires { let asked = job_in job.now in
        Routable asked × (8 * nodes asked ≤ length work.old) }
    ensures first_missing { reach_numbers result ≡ missing (job_in job.now) }
    ensures same_from { SameFrom (8 * length job.now.block.kind.now) work.old work.new }
{
    let n = job.block.kind.len();
    let mut reached = [0u8; NODES_MOST];
    for net in 0..job.source.len() {
        let from = job.first_sink[net] as usize;
        let to = job.first_sink[net + 1] as usize;
        let s = job.source[net] as usize;
        flood::flood(&job.block, s, &job.sink[from..to], &mut reached[..n], work);
        let place = flood::missing_sink(&reached[..n], &job.sink[from..to], 0);
        if place < to - from {
            return Some(Missing {
                net: net as u32,
                place: place as u32,
            });
        }
    }
    None
}
