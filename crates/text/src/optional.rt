// The lines that may follow the first line of a job text.
ghost use Rattle.std.specs.Prelude.{◌≡◌, ◌≤◌, drop};
ghost use Rattle.text.specs.Lines.{line};
ghost use Rattle.text.specs.JobText.{and_then, rule_part, timed_part, terms_part};
ghost use Rattle.text.specs.Steps.{Within, Shaped, terms_at, TermsPlace};

use crate::fields::LineFields;
use crate::place::{LineFault, LineRefusal, Place};
use crate::{fields, rule, timed, tuning};
use job::Terms;

// The terms with the place after the lines that were read.
#[derive(Clone, Copy)]
pub struct TermsRead {
    pub terms: Terms,
    pub place: Place,
}

// The line of this letter and this many fields, four at most, if a line of this letter stands here.
pub fn optional_line(
    text: &[u8],
    from: Place,
    letter: u8,
    count: usize,
) -> Result<Option<LineFields>, LineRefusal>
    requires { count ≤ 4 }
    ensures { Shaped letter (line letter count) count from text.now result }
{
    if !fields::byte_is(text, from.at, letter) {
        return Ok(None);
    }
    let Some(found) = fields::line_fields(text, from.at, letter, count) else {
        return Err(LineRefusal {
            fault: LineFault::Malformed,
            line: from.line,
        });
    };
    Ok(Some(found))
}

// The terms with those of the V and the W line where these stand, else as they are.
fn read_further(text: &[u8], from: Place, terms: Terms) -> Result<TermsRead, LineRefusal>
    requires { Within text.now from }
    ensures value { terms_at text.now result ≡ and_then (rule_part terms from.line (drop from.at text.now)) timed_part }
    ensures terms_place { TermsPlace text.now result }
{
    let ruled = rule::read_rule(text, from, terms)?;
    timed::read_times(text, ruled.place, ruled.terms)
}

// The terms of this limit, with those of the P, the V and the W line where these stand, else the plain ones.
pub fn read_terms(text: &[u8], from: Place, limit: u32) -> Result<TermsRead, LineRefusal>
    requires { Within text.now from }
    ensures value { terms_at text.now result ≡ terms_part limit from.line (drop from.at text.now) }
    ensures terms_place { TermsPlace text.now result }
{
    let tuned = tuning::read_tuning(text, from, job::plain_terms(limit))?;
    read_further(text, tuned.place, tuned.terms)
}
