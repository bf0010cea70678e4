ghost use Rattle.roster.specs.Limits.{kinds};
ghost use Rattle.roster.specs.Sides.{Names, number_of_kind, kind_text};
ghost use Rattle.std.specs.Prelude.{◌≡◌, Some};

use crate::limits::KINDS;
use refusals::Refusal;
use std::fmt;

// The kind of a quantity that is not delivered. It has the functions of a side over again: one form for both would be longer than the two.
#[derive(Clone, Copy, PartialEq, Eq, Debug)]
pub enum Kind {
    Failed,
    Infeasible,
}

// The constant counts the kinds; by a cast, as below.
const _: () = prove!(Kind::Infeasible as usize + 1 == KINDS);

impl TryFrom<usize> for Kind {
    type Error = Refusal;

    ghost try_from_gives = { Names number_of_kind kinds };

    fn try_from(number: usize) -> Result<Kind, Refusal> {
        match number {
            0 => Ok(Kind::Failed),
            1 => Ok(Kind::Infeasible),
            _ => Err(Refusal::NoSuchPlace),
        }
    }
}

impl From<Kind> for usize {
    ghost from_gives = { λ kind number. number ≡ number_of_kind kind };

    fn from(kind: Kind) -> usize {
        kind as usize
    }
}

impl fmt::Display for Kind {
    ghost output = { λ kind. Some (kind_text kind) };

    fn fmt<W: fmt::Write>(&self, f: &mut fmt::Formatter<W>) -> fmt::Result {
        match self {
            Kind::Failed => write!(f, "failed"),
            Kind::Infeasible => write!(f, "infeasible"),
        }
    }
}
