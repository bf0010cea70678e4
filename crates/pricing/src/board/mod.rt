use crate::board::interval::Interval;
use crate::limits::{INTERVALS, MOST_MARKETS};
use std::marker::Model;

pub mod filing;
pub mod interval;
pub mod reading;

// The prices of the markets that have cleared, in turn, and the intervals of the hour, each filed or not.
//
// A table with a count beside it: the library uses no heap, and a board can be copied, which the kit's vector of fixed capacity cannot.
#[derive(Clone, Copy)]
pub struct Board {
    prices: [u32; MOST_MARKETS],
    cleared: usize,
    intervals: [Option<Interval>; INTERVALS],
}

impl Model for Board {
    ghost use Rattle.pricing.specs.Boards.{PlainBoard};

    ghost Value = { PlainBoard };

    ghost use Rattle.pricing.specs.Views.{plain, in_memory, Sound, in_memory_of_plain};

    ghost view = { plain };

    ghost invariant = { Sound };

    ghost inverse = { in_memory };

    ghost inverse_ok = { in_memory_of_plain };
}
