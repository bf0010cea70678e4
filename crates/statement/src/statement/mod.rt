use crate::amounts::Row;
use roster::limits::MOST_ENROLLED;
use std::marker::Model;

pub mod working;

// The rows of a statement, one for each enrolled QSE.
//
// A table with a count beside it: the library uses no heap, and a statement can be copied, which the kit's vector of fixed capacity cannot.
#[derive(Clone, Copy)]
pub struct Statement {
    rows: [Row; MOST_ENROLLED],
    count: usize,
}

impl Model for Statement {
    ghost use Rattle.std.specs.Prelude.{List};
    ghost use Rattle.statement.specs.declared.amounts.Row.{Row};

    ghost Value = { List Row };

    ghost use Rattle.statement.specs.Views.{plain, Sound, in_memory, in_memory_of_plain};

    ghost view = { plain };

    ghost invariant = { Sound };

    ghost inverse = { in_memory };

    ghost inverse_ok = { in_memory_of_plain };
}
