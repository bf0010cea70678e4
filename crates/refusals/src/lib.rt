// Why a call is refused. Each refusal has one number, which is what an analyst sees.
#![tactic(auto)]

ghost use Rattle.std.specs.Prelude.{◌≡◌, Some};
ghost use Rattle.refusals.specs.Refused.{number_of, refusal_text};

use std::fmt;

#[derive(Clone, Copy, PartialEq, Eq, Debug)]
pub enum Refusal {
    WrongQse = 4,
    RosterFull = 5,
    NoSuchPlace = 6,
    PriceAboveLimit = 7,
    QuantityAboveLimit = 8,
    ArrangedAboveObligation = 9,
    DayAheadNotCleared = 10,
    NothingOpenDayAhead = 12,
    NothingBought = 13,
    NoLoad = 14,
    OutsideSharingRange = 19,
}

impl Refusal {
    // The number that an analyst sees. A method with a name, and not a `From` for `u8`, so that a call says which number it asks for.
    pub fn number(self) -> u8
        ensures { result ≡ number_of self }
    {
        self as u8
    }
}

// As an analyst reads it: refused 8.
impl fmt::Display for Refusal {
    ghost output = { λ refusal. Some (refusal_text refusal) };

    fn fmt<W: fmt::Write>(&self, f: &mut fmt::Formatter<W>) -> fmt::Result {
        let number = self.number();
        write!(f, "refused {number}")
    }
}
