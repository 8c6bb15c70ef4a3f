// The V line, which may follow the first line of a job text and any P line.
ghost use Rattle.std.specs.Prelude.{true, ◌≡◌, drop};
ghost use Rattle.text.specs.Lines.{letter_v, begins, malformed, line};
ghost use Rattle.text.specs.JobText.{rule_fields, rule_part};
ghost use Rattle.text.specs.Steps.{Within, Shaped, terms_at, TermsPlace};

use crate::fields::LineFields;
use crate::optional::TermsRead;
use crate::place::{LineFault, LineRefusal, Place};
use crate::{fields, optional};
use job::Terms;

// A V line that does not have one number: it has two, and the first is not 1.
fn longer_line(text: &[u8], from: Place) -> Result<Option<LineFields>, LineRefusal>
    requires { let bytes = drop from.at text.now in
        (begins letter_v bytes ≡ true) × (line letter_v 1 bytes ≡ malformed) }
    ensures { Shaped letter_v rule_fields 2 from text.now result }
{
    let malformed = LineRefusal {
        fault: LineFault::Malformed,
        line: from.line,
    };
    let Some(found) = fields::line_fields(text, from.at, b'V', 2) else {
        return Err(malformed);
    };
    if found.first == 1 {
        return Err(malformed);
    }
    Ok(Some(found))
}

// The V line with one number or two; a missing second number is 1.
fn rule_line(text: &[u8], from: Place) -> Result<Option<LineFields>, LineRefusal>
    ensures { Shaped letter_v rule_fields 2 from text.now result }
{
    let Ok(found) = optional::optional_line(text, from, b'V', 1) else {
        return longer_line(text, from);
    };
    let Some(one) = found else {
        return Ok(None);
    };
    Ok(Some(LineFields { second: 1, ..one }))
}

// The terms with the rule of the V line where there is one, else as they are.
pub fn read_rule(text: &[u8], from: Place, terms: Terms) -> Result<TermsRead, LineRefusal>
    requires { Within text.now from }
    ensures value { terms_at text.now result ≡ rule_part terms from.line (drop from.at text.now) }
    ensures terms_place { TermsPlace text.now result }
{
    let Some(found) = rule_line(text, from)? else {
        return Ok(TermsRead { terms, place: from });
    };
    let LineFields {
        first: rule,
        second: until,
        next,
        ..
    } = found;
    if !job::rule_sound(rule, until) {
        return Err(LineRefusal {
            fault: LineFault::BeyondBounds,
            line: from.line,
        });
    }
    Ok(TermsRead {
        terms: Terms {
            rule,
            until,
            ..terms
        },
        place: Place {
            at: next,
            line: from.line + 1,
        },
    })
}
