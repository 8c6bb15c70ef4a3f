// The W line, which may follow the first line of a job text and any P and V line.
ghost use Rattle.std.specs.Prelude.{◌≡◌, drop};
ghost use Rattle.text.specs.JobText.{timed_part};
ghost use Rattle.text.specs.Steps.{Within, terms_at, TermsPlace};

use crate::optional;
use crate::optional::TermsRead;
use crate::place::{LineRefusal, Place};
use job::Terms;

// The terms of a timed job where there is a W line, else as they are.
pub fn read_times(text: &[u8], from: Place, terms: Terms) -> Result<TermsRead, LineRefusal>
    requires { Within text.now from }
    ensures value { terms_at text.now result ≡ timed_part terms from.line (drop from.at text.now) }
    ensures terms_place { TermsPlace text.now result }
{
    let Some(found) = optional::optional_line(text, from, b'W', 0)? else {
        return Ok(TermsRead { terms, place: from });
    };
    Ok(TermsRead {
        terms: Terms {
            timed: true,
            ..terms
        },
        place: Place {
            at: found.next,
            line: from.line + 1,
        },
    })
}
