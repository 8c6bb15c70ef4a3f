// The numbers of a refusal, as 01's table "Numbers for a stopped call" lists them. Every layer's own refusals become these, for the calls
// for C and for the line that the program prints.
use price::BadNumber;
use search::Refusal;

// A refusal's number, and one or two numbers beside it.
#[derive(Clone, Copy, Debug, PartialEq, Eq)]
pub struct Refused {
    pub number: u32,
    pub first: u64,
    pub second: Option<u64>,
}

impl From<BadNumber> for Refused {
    ghost use Rattle.std.specs.Prelude.{[], ◌∷◌, ◌≡◌};
    ghost use Rattle.job.specs.Tables.{refused_numbers};

    ghost from_gives = { λ bad refused. refused_numbers refused ≡ 13 ∷ bad.place ∷ [] };

    fn from(bad: BadNumber) -> Refused {
        Refused {
            number: 13,
            first: bad.place as u64,
            second: None,
        }
    }
}

impl From<Refusal> for Refused {
    ghost use Rattle.std.specs.Prelude.{◌≡◌};
    ghost use Rattle.search.specs.Replies.{refusal_numbers};
    ghost use Rattle.job.specs.Tables.{refused_numbers};

    ghost from_gives = { λ refusal refused. refused_numbers refused ≡ refusal_numbers refusal };

    fn from(refusal: Refusal) -> Refused {
        let (number, first, second) = match refusal {
            Refusal::BadTable(table) => (5, table as u64, None),
            Refusal::ShortWork(needed) => (6, needed, None),
            Refusal::BadNumber(place) => (13, place as u64, None),
            Refusal::TooLarge(nodes) => (15, nodes as u64, Some(0)),
        };
        Refused {
            number,
            first,
            second,
        }
    }
}
