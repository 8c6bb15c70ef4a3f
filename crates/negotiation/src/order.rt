// Which sinks a turn tries, and how it weighs delay: all of the net's, in a timed job the one whose turn it is.
ghost use Rattle.std.specs.Prelude.{◌≡◌, ◌+◌, length};
ghost use Rattle.price.specs.Bounds.{criticality_most};
ghost use Rattle.search.specs.Distance.{tree_has};
ghost use Rattle.job.specs.Steps.{AllBelow};
ghost use Rattle.negotiation.specs.Order.{place_due};
ghost use Rattle.negotiation.specs.OrderSteps.{SinksReady, TriedSinks};

use job::JobTables;
use price::Weighting;

// The sinks that a turn tries stand in table 7 from one place to below another.
#[derive(Clone, Copy)]
pub struct Tried {
    pub weighting: Weighting,
    pub from: usize,
    pub to: usize,
}

// The place of the first of the most critical sinks that are not joined, how many sinks there are where all are joined.
// No Option: in the definition too the count stands for none, and a turn's sinks end there.
fn place_due(sinks: &[u16], criticality: &[u8], in_tree: &[u8]) -> usize
    requires criticality_len { (length criticality.now ≡ length sinks.now) × AllBelow (length in_tree.now) sinks.now }
    requires all_below { AllBelow (criticality_most + 1) criticality.now }
    ensures { result ≡ place_due (tree_has in_tree.now) sinks.now criticality.now }
{
    let mut due = sinks.len();
    // What a sink must have to come before the one found so far.
    let mut least: u8 = 0;
    for place in 0..sinks.len() {
        let s = sinks[place] as usize;
        if in_tree[s] != 1 && least <= criticality[place] {
            due = place;
            least = criticality[place] + 1;
        }
    }
    due
}

// What a turn tries of the sinks from one place of table 7 to below another, which are a net's.
pub fn next_tried(job: &JobTables, from: usize, to: usize, in_tree: &[u8]) -> Tried
    requires { let j = job.now in SinksReady j.terms.timed j.sink.now j.criticality.now from to in_tree.now }
    ensures { let j = job.now in TriedSinks j.terms.timed in_tree.now j.sink.now j.criticality.now from to result }
{
    let mut weighting = Weighting {
        timed: job.terms.timed,
        criticality: 0,
    };
    if !weighting.timed {
        return Tried {
            weighting,
            from,
            to,
        };
    }
    let at = from + place_due(&job.sink[from..to], &job.criticality[from..to], in_tree);
    let mut end = to;
    if at < to {
        weighting.criticality = job.criticality[at] as u32;
        end = at + 1;
    }
    Tried {
        weighting,
        from: at,
        to: end,
    }
}
