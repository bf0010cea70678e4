ghost use Rattle.roster.specs.Limits.{sides};
ghost use Rattle.roster.specs.Sides.{Names, number_of_side, side_text};
ghost use Rattle.std.specs.Prelude.{◌≡◌, Some};

use crate::limits::SIDES;
use refusals::Refusal;
use std::fmt;

// The side on which a quantity is arranged.
#[derive(Clone, Copy, PartialEq, Eq, Debug)]
pub enum Side {
    DayAhead,
    Later,
}

// The constant counts the sides; by a cast, as below.
const _: () = prove!(Side::Later as usize + 1 == SIDES);

impl TryFrom<usize> for Side {
    type Error = Refusal;

    ghost try_from_gives = { Names number_of_side sides };

    fn try_from(number: usize) -> Result<Side, Refusal> {
        match number {
            0 => Ok(Side::DayAhead),
            1 => Ok(Side::Later),
            _ => Err(Refusal::NoSuchPlace),
        }
    }
}

impl From<Side> for usize {
    ghost from_gives = { λ side number. number ≡ number_of_side side };

    fn from(side: Side) -> usize {
        // A cast, here and for a kind, since an enum has no other way to its number.
        side as usize
    }
}

impl fmt::Display for Side {
    ghost output = { λ side. Some (side_text side) };

    fn fmt<W: fmt::Write>(&self, f: &mut fmt::Formatter<W>) -> fmt::Result {
        match self {
            Side::DayAhead => write!(f, "day-ahead"),
            Side::Later => write!(f, "later"),
        }
    }
}
