// Money and quantities as an analyst reads them, from whole cents and whole tenths of a MW.
//
// `Dollars` and `Megawatts` promise the bytes that they write, for every number,
// and `groups_lose_nothing` that the commas leave every digit in its place.
#![tactic(auto)]

ghost use Rattle.std.specs.Fmt.{sign_text};
ghost use Rattle.std.specs.Int.{is_negative};
ghost use Rattle.std.specs.Prelude.{◌≡◌, ◌*◌, ◌≤◌, ◌++◌, codes, length, pos, Some};
ghost use Rattle.text.specs.Texts.{GroupsLoseNothing, grouped_by, most_groups, dollars_text, megawatts_text};

use std::fmt;

// An amount in cents, as dollars: -$4,235.00.
#[derive(Clone, Copy)]
pub struct Dollars {
    pub cents: i64,
}

// A quantity in tenths of a MW: 1,000.0 MW.
#[derive(Clone, Copy)]
pub struct Megawatts {
    pub tenths: u32,
}

impl Dollars {
    // What stands in front of the digits.
    fn sign(self) -> &'static str
        ensures { result.now ≡ sign_text (is_negative self.cents) ++ codes "$" }
    {
        if self.cents < 0 { "-$" } else { "$" }
    }

    // How many characters are written of it, for a table with columns.
    pub fn width(self) -> usize
        ensures { result ≡ length (dollars_text self.cents) }
    {
        let whole = Grouped(self.cents.unsigned_abs() / 100);
        self.sign().len() + whole.width() + ".00".len()
    }
}

// An amount, in cents.
impl From<i64> for Dollars {
    ghost from_gives = { λ cents amount. amount.cents ≡ cents };

    fn from(cents: i64) -> Dollars {
        Dollars { cents }
    }
}

// A price, in cents.
impl From<u32> for Dollars {
    ghost from_gives = { λ cents amount. amount.cents ≡ pos cents };

    fn from(cents: u32) -> Dollars {
        Dollars::from(i64::from(cents))
    }
}

// A quantity, in tenths of a MW.
impl From<u32> for Megawatts {
    ghost from_gives = { λ tenths quantity. quantity.tenths ≡ tenths };

    fn from(tenths: u32) -> Megawatts {
        Megawatts { tenths }
    }
}

// A number in groups of three digits, with a comma between them.
#[derive(Clone, Copy)]
struct Grouped(u64);

impl Grouped {
    // How many characters are written of it.
    fn width(self) -> usize
        ensures value { result ≡ length (grouped_by most_groups self.0) }
        ensures bound { result ≤ 4 * most_groups }
    {
        match self.0 {
            0..10 => 1,
            10..100 => 2,
            100..1_000 => 3,
            _ => Grouped(self.0 / 1_000).width() + 4,
        }
    }
}

impl fmt::Display for Grouped {
    ghost output = { λ whole. Some (grouped_by most_groups whole.0) };

    #[tactic(auto, using(std::proofs::lemmas::Grind::common_steps, crate::proofs::Groups::small_written, crate::proofs::Groups::large_written))]
    fn fmt<W: fmt::Write>(&self, f: &mut fmt::Formatter<W>) -> fmt::Result {
        let number = self.0;
        if number < 1000 {
            return write!(f, "{number}");
        }
        Grouped(number / 1000).fmt(f)?;
        // Digit by digit, here and for the cents, and not by `{:03}`, which hands all digits to the writer in one piece: a writer whose room ends inside a
        // number takes the digits that fit.
        let hundreds = number / 100 % 10;
        let tens = number / 10 % 10;
        let ones = number % 10;
        write!(f, ",{hundreds}{tens}{ones}")
    }
}

impl fmt::Display for Dollars {
    ghost output = { λ amount. Some (dollars_text amount.cents) };

    fn fmt<W: fmt::Write>(&self, f: &mut fmt::Formatter<W>) -> fmt::Result {
        let sign = self.sign();
        let size = self.cents.unsigned_abs();
        let whole = Grouped(size / 100);
        let tens = size / 10 % 10;
        let ones = size % 10;
        write!(f, "{sign}{whole}.{tens}{ones}")
    }
}

impl fmt::Display for Megawatts {
    ghost output = { λ quantity. Some (megawatts_text quantity.tenths) };

    fn fmt<W: fmt::Write>(&self, f: &mut fmt::Formatter<W>) -> fmt::Result {
        let whole = Grouped(u64::from(self.tenths / 10));
        // The one digit after the point.
        let tenths = self.tenths % 10;
        write!(f, "{whole}.{tenths} MW")
    }
}

// A number in groups is the number as it is written, with commas put in.
#[tactic(auto, using(crate::proofs::Groups::groups_lose_nothing))]
pub fn groups_lose_nothing()
    ensures { GroupsLoseNothing }
{}
