// The terms of a job, which a refusal counts as table 8.
ghost use Rattle.std.specs.Prelude.{◌≡◌};
ghost use Rattle.job.specs.Job.{plain_terms};
ghost use Rattle.job.specs.Tables.{rule_sound, terms_sound, exceeds as exceeds_bounds};

use crate::{Terms, tuning_sound};
use search::TIMED_NODES_MOST;

// The largest limit of iterations.
const LIMIT_MOST: u32 = 100;

// The largest limit of a timed job.
const TIMED_LIMIT_MOST: u32 = 40;

// The largest iteration after which rule 2 may be followed.
const UNTIL_MOST: u32 = 99;

// The terms of a job that asks for no tuning and no rule and is not timed.
pub fn plain_terms(limit: u32) -> Terms
    ensures { result ≡ plain_terms limit }
{
    Terms {
        limit,
        tuning: price::plain_tuning(),
        rule: 1,
        until: 1,
        timed: false,
    }
}

// The rule is 1 or 2, and the last iteration before rule 2 is followed keeps its bounds.
#[tactic(auto, unfolding(crate::specs::Tables::rule_sound, crate::specs::Tables::one_of))]
pub fn rule_sound(rule: u32, until: u32) -> bool
    ensures { result ≡ rule_sound rule until }
{
    1 <= until && until <= UNTIL_MOST && (rule == 1 || rule == 2)
}

// The limit, each number of the tuning and the rule keep their bounds.
#[tactic(auto, unfolding(crate::specs::Tables::terms_sound, crate::specs::Tables::limit_sound))]
pub fn terms_sound(terms: Terms) -> bool
    ensures { result ≡ terms_sound terms }
{
    1 <= terms.limit
        && terms.limit <= LIMIT_MOST
        && tuning_sound(terms.tuning)
        && rule_sound(terms.rule, terms.until)
}

// A timed job has more nodes, or a larger limit, than it may.
#[tactic(auto, unfolding(crate::specs::Tables::exceeds))]
pub fn exceeds(nodes: usize, terms: Terms) -> bool
    ensures { result ≡ exceeds_bounds nodes terms }
{
    terms.timed && (TIMED_NODES_MOST < nodes || TIMED_LIMIT_MOST < terms.limit)
}
