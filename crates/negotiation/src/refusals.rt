// The numbers of an outcome that is no success, for the calls for C and for the line that the program prints.
ghost use Rattle.std.specs.Prelude.{◌≡◌, take};
ghost use Rattle.job.specs.Tables.{numbers_if};
ghost use Rattle.negotiation.specs.Outcome.{route_refusal};

use crate::Outcome;
use job::Refused;

// The refusal, none where the run is accepted or the log is sound; of a run that came to this iteration and made so many turns. The least
// cost of a turn that is not cheapest is not among these numbers.
pub fn refusal(outcome: Outcome, iteration: u32, turns: u64) -> Option<Refused>
    ensures { numbers_if result ≡ take 3 (route_refusal outcome iteration turns) }
{
    let (number, first, second) = match outcome {
        Outcome::Accepted => return None,
        Outcome::BadTable(table) => (5, table as u64, None),
        Outcome::ShortWork(needed) => (6, needed, None),
        Outcome::Unreachable { net, place } => (7, net as u64, Some(place as u64)),
        Outcome::LogFull => (8, iteration as u64, Some(turns)),
        Outcome::Limit(over) => (9, iteration as u64, Some(over as u64)),
        Outcome::Diverges(word) => (14, word, None),
        Outcome::TooLarge { nodes, limit } => (15, nodes as u64, Some(limit as u64)),
        Outcome::NotCheapest {
            word,
            cost,
            least: _,
        } => (18, word, Some(cost)),
    };
    Some(Refused {
        number,
        first,
        second,
    })
}
