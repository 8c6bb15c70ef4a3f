// The program's input: one line `seed,nodes,nets`, ended by LF.
ghost use Rattle.std.specs.Prelude.{◌≡◌, ◌+◌, ◌*◌, ◌<◌, ◌≤◌, length, drop};
ghost use Rattle.text.specs.Decimal.{is_digit};
ghost use Rattle.text.specs.Lines.{digits_after};
ghost use Rattle.generator.specs.Ask.{number_up_to, field_ends, whole_field, next_field, asked_in};
ghost use Rattle.generator.specs.Steps.{asked_field_at, AskedFieldPlace, FieldWithin, asked_of, AskWithin};

// A number, and the place after its digits.
#[derive(Clone, Copy, Debug, PartialEq, Eq)]
pub struct Field {
    pub value: u64,
    pub next: usize,
}

// What the input asks for.
#[derive(Clone, Copy, Debug, PartialEq, Eq)]
pub struct Load {
    pub seed: u32,
    pub nodes: u32,
    pub nets: u32,
}

// The place of the field for which the input is refused.
#[derive(Clone, Copy, Debug, PartialEq, Eq)]
pub struct TurnedAway {
    pub place: u32,
}

// A field ends here: a comma, LF or the end of the input.
fn field_ends(input: &[u8], at: usize) -> bool
    ensures { result ≡ field_ends (drop at input.now) }
{
    input.len() <= at || matches!(input[at], b',' | b'\n')
}

fn is_digit(b: u8) -> bool
    ensures { result ≡ is_digit b }
{
    b'0' <= b && b <= b'9'
}

// A number that begins with this digit continues with at most this many more.
fn further_digits(input: &[u8], at: usize, first: u64, more: u32) -> Field
    requires { (at ≤ length input.now) × (first < 10) × (more ≤ 9) }
    ensures value { asked_field_at input.now (Some result) ≡ digits_after more first (drop at input.now) }
    ensures field_within { result.next ≤ length input.now }
{
    let mut value = first;
    let mut next = at;
    for _ in 0..more {
        if input.len() <= next || !is_digit(input[next]) {
            return Field { value, next };
        }
        value = value * 10 + (input[next] - b'0') as u64;
        next += 1;
    }
    Field { value, next }
}

// A number without a leading zero, of at most this many digits after its first.
fn number(input: &[u8], at: usize, more: u32) -> Option<Field>
    requires { more ≤ 9 }
    ensures value { asked_field_at input.now result ≡ number_up_to more (drop at input.now) }
    ensures asked_field_place { AskedFieldPlace input.now result }
{
    if input.len() <= at {
        return None;
    }
    let b = input[at];
    if b == b'0' {
        return Some(Field {
            value: 0,
            next: at + 1,
        });
    }
    if !is_digit(b) {
        return None;
    }
    Some(further_digits(input, at + 1, (b - b'0') as u64, more))
}

// A whole field whose number lies within these bounds.
fn whole_field(input: &[u8], at: usize, more: u32, low: u64, high: u64) -> Option<Field>
    requires { more ≤ 9 }
    ensures value { asked_field_at input.now result ≡ whole_field more low high (drop at input.now) }
    ensures field_within { FieldWithin low high input.now result }
{
    let field = number(input, at, more)?;
    if !field_ends(input, field.next) || field.value < low || high < field.value {
        return None;
    }
    Some(field)
}

// Such a field after a comma.
fn next_field(input: &[u8], at: usize, more: u32, low: u64, high: u64) -> Option<Field>
    requires { more ≤ 9 }
    ensures value { asked_field_at input.now result ≡ next_field more low high (drop at input.now) }
    ensures field_within { FieldWithin low high input.now result }
{
    if !text::byte_is(input, at, b',') {
        return None;
    }
    whole_field(input, at + 1, more, low, high)
}

// The input's line.
pub fn asked(input: &[u8]) -> Result<Load, TurnedAway>
    ensures value { asked_of result ≡ asked_in input.now }
    ensures ask_within { AskWithin result }
{
    let Some(seed) = whole_field(input, 0, 9, 0, 4294967295) else {
        return Err(TurnedAway { place: 0 });
    };
    let Some(nodes) = next_field(input, seed.next, 5, 8, 256) else {
        return Err(TurnedAway { place: 1 });
    };
    let Some(nets) = next_field(input, nodes.next, 5, 1, 64) else {
        return Err(TurnedAway { place: 2 });
    };
    if !text::byte_is(input, nets.next, 10) || nets.next + 1 < input.len() {
        return Err(TurnedAway { place: 3 });
    }
    Ok(Load {
        seed: seed.value as u32,
        nodes: nodes.value as u32,
        nets: nets.value as u32,
    })
}
