use crate::limits::MOST_ENROLLED;
use crate::records::{Record, Totals};
use std::marker::Model;

pub mod filing;
pub mod reading;

// The records of the enrolled QSEs in the order of enrolment, and their totals.
//
// A table with a count beside it: the library uses no heap, and a roster can be copied, which the kit's vector of fixed capacity cannot.
#[derive(Clone, Copy)]
pub struct Roster {
    records: [Record; MOST_ENROLLED],
    count: usize,
    totals: Totals,
}

impl Model for Roster {
    ghost use Rattle.std.specs.Prelude.{List};
    ghost use Rattle.roster.specs.declared.records.Record.{Record};

    ghost Value = { List Record };

    ghost use Rattle.roster.specs.Views.{plain, in_memory, Sound, in_memory_of_plain};

    ghost view = { plain };

    ghost invariant = { Sound };

    ghost inverse = { in_memory };

    ghost inverse_ok = { in_memory_of_plain };
}
