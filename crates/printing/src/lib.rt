// What the programs share: what can stop one while it prints, the sums that it shows, and how it ends.
//
// `finish` promises what is written after what was printed: nothing, or a line that says what stopped it; or that it answers the output's error. That what
// is held back is written out is only tested: no clause speaks of a flush.
#![tactic(auto)]

ghost use Rattle.integers.specs.Totals.{size_of, total_of};
ghost use Rattle.printing.specs.Stops.{Ends, stop_text};
ghost use Rattle.printing.specs.declared.Stop.TheVariants.{Output, Refused, TooLarge};
ghost use Rattle.std.specs.Prelude.{◌≡◌, ◌≤◌, IsOkUnless};
ghost use Rattle.std.specs.Result.{OkIff};

use integers::total_within;
use refusals::Refusal;
use std::error::Error;
use std::io::Write;
use std::num::TryFromIntError;
use std::{fmt, io};

// What can stop a program while it prints.
#[derive(Debug, Drop)]
pub enum Stop {
    Refused(Refusal),
    TooLarge,
    Output(io::Error),
}

// Display and From are by hand: `thiserror` derives them with no promise of the text, on which `finish` rests, or of which error a `?` makes, on which the
// programs rest.
impl fmt::Display for Stop {
    ghost output = { stop_text };

    fn fmt<W: fmt::Write>(&self, f: &mut fmt::Formatter<W>) -> fmt::Result {
        match self {
            Stop::Refused(refusal) => write!(f, "{refusal}"),
            Stop::TooLarge => write!(f, "an amount is too large to print"),
            Stop::Output(error) => write!(f, "{error}"),
        }
    }
}

impl Error for Stop {}

impl From<Refusal> for Stop {
    ghost from_gives = { λ refusal stop. stop ≡ Refused refusal };

    fn from(refusal: Refusal) -> Self {
        Self::Refused(refusal)
    }
}

impl From<TryFromIntError> for Stop {
    ghost from_gives = { λ _ stop. stop ≡ TooLarge };

    fn from(_error: TryFromIntError) -> Self {
        Self::TooLarge
    }
}

impl From<io::Error> for Stop {
    ghost from_gives = { λ error stop. stop ≡ Output error };

    fn from(error: io::Error) -> Self {
        Self::Output(error)
    }
}

// The sum of amounts, where their sizes without sign add up to a number of 32 bits.
pub fn sum(amounts: &[i64]) -> Result<i64, Stop>
    ensures total { OkIff result (size_of amounts.now ≤ u32.MAX) (total_of amounts.now) }
    ensures error { IsOkUnless result TooLarge }
{
    total_within(amounts, u32::MAX).ok_or(Stop::TooLarge)
}

// Writes what stopped the printing, where something did, and then all that is still held back. An error of the output is handed on.
pub fn finish<W: Write>(out: &mut W, stopped: Result<(), Stop>) -> io::Result<()>
    ensures { Ends stopped (W.contents out.old) (W.contents out.new) result }
{
    if let Err(stop) = stopped {
        match stop {
            Stop::Output(error) => return Err(error),
            told => writeln!(out, "{told}")?,
        }
    }
    out.flush()
}
