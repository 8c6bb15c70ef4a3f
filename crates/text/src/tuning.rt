// The P line, which may follow the first line of a job text.
ghost use Rattle.std.specs.Prelude.{◌≡◌, drop};
ghost use Rattle.text.specs.JobText.{tuning_part};
ghost use Rattle.text.specs.Steps.{Within, terms_at, TermsPlace};

use crate::optional;
use crate::optional::TermsRead;
use crate::place::{LineFault, LineRefusal, Place};
use job::{Terms, Tuning};

// The terms with the tuning of the P line where there is one, else as they are.
pub fn read_tuning(text: &[u8], from: Place, terms: Terms) -> Result<TermsRead, LineRefusal>
    requires { Within text.now from }
    ensures value { terms_at text.now result ≡ tuning_part terms from.line (drop from.at text.now) }
    ensures terms_place { TermsPlace text.now result }
{
    let Some(found) = optional::optional_line(text, from, b'P', 4)? else {
        return Ok(TermsRead { terms, place: from });
    };
    let tuning = Tuning {
        first: found.first,
        up: found.second,
        down: found.third,
        step: found.fourth,
    };
    if !job::tuning_sound(tuning) {
        return Err(LineRefusal {
            fault: LineFault::BeyondBounds,
            line: from.line,
        });
    }
    Ok(TermsRead {
        terms: Terms { tuning, ..terms },
        place: Place {
            at: found.next,
            line: from.line + 1,
        },
    })
}
