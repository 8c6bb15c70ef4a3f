// The numbers of a refusal, as 01's table "Numbers for a stopped call" lists them.
use crate::{AddRefusal, PrintRefusal};
use job::Refused;

impl From<AddRefusal> for Refused {
    ghost use Rattle.std.specs.Prelude.{Err, ◌≡◌};
    ghost use Rattle.job.specs.Tables.{refused_numbers};
    ghost use Rattle.uses.specs.Uses.{add_refusal};

    ghost from_gives = { λ refusal refused. refused_numbers refused ≡ add_refusal (Err refusal) };

    fn from(refusal: AddRefusal) -> Refused {
        let (number, first) = match refusal {
            AddRefusal::BadTable(table) => (5, table as u64),
            AddRefusal::BadCount(kind) => (13, kind as u64),
            AddRefusal::Unsound(word) => (10, word as u64),
            AddRefusal::LogsFull(most) => (16, most),
        };
        Refused {
            number,
            first,
            second: None,
        }
    }
}

impl From<PrintRefusal> for Refused {
    ghost use Rattle.std.specs.Prelude.{Err, ◌≡◌};
    ghost use Rattle.job.specs.Tables.{refused_numbers};
    ghost use Rattle.uses.specs.Uses.{print_refusal};

    ghost from_gives = { λ refusal refused. refused_numbers refused ≡ print_refusal (Err refusal) };

    fn from(refusal: PrintRefusal) -> Refused {
        let (number, first) = match refusal {
            PrintRefusal::BadTable(table) => (5, table as u64),
            PrintRefusal::BadCount(kind) => (13, kind as u64),
            PrintRefusal::ShortBuffer(needed) => (11, needed),
        };
        Refused {
            number,
            first,
            second: None,
        }
    }
}
