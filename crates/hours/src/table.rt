// A table of QSEs by amounts, each column set to the right.
use printing::{Stop, sum};
use statement::amounts::{Amounts, Row};
use statement::statement::Statement;
use std::fmt::Display;
use std::io::Write;
use text::Dollars;

// A QSE's own amounts, and under each of two sharing rules its charge, its adjustment and all six together.
const COLUMNS: [&str; 10] = [
    "award",
    "supplemental",
    "failure",
    "infeasible",
    "charge",
    "adjustment",
    "all",
    "charge",
    "adjustment",
    "all",
];

// The least width of a column.
const WIDTH: usize = 10;

// Both statements side by side, and the totals of the columns.
pub fn write_statements<W: Write>(
    out: &mut W,
    running: &Statement,
    largest: &Statement,
) -> Result<(), Stop> {
    write_head(out)?;
    let mut totals = [0; 10];
    for (row, other) in running.rows().iter().zip(largest.rows()) {
        let cells = cells_of(row, other)?;
        write_line(out, row.qse, cells)?;
        totals = added(totals, cells)?;
    }
    write_line(out, "all", totals)
}

fn write_head<W: Write>(out: &mut W) -> Result<(), Stop> {
    writeln!(
        out,
        "{:>79}{:>33}",
        "by the running rule", "by largest remainder"
    )?;
    write!(out, "    QSE")?;
    for name in COLUMNS {
        write!(out, " {name:>WIDTH$}")?;
    }
    writeln!(out)?;
    Ok(())
}

fn write_line<W: Write, N: Display + Drop>(
    out: &mut W,
    name: N,
    cells: [i64; 10],
) -> Result<(), Stop> {
    write!(out, "  {name:>5}")?;
    let blank = "";
    for (cents, column) in cells.iter().zip(&COLUMNS) {
        let amount = Dollars::from(*cents);
        // The spaces by hand: an amount honours no width, since it would then be written to a buffer first, which can be too short.
        let gap = column.len().max(WIDTH).saturating_sub(amount.width());
        write!(out, " {blank:gap$}{amount}")?;
    }
    writeln!(out)?;
    Ok(())
}

fn cells_of(row: &Row, other: &Row) -> Result<[i64; 10], Stop> {
    let amounts = row.amounts;
    let others = other.amounts;
    Ok([
        amounts.award,
        amounts.supplemental,
        amounts.failure,
        amounts.infeasible,
        amounts.charge,
        amounts.adjustment,
        all_of(amounts)?,
        others.charge,
        others.adjustment,
        all_of(others)?,
    ])
}

fn all_of(amounts: Amounts) -> Result<i64, Stop> {
    sum(&[
        amounts.award,
        amounts.supplemental,
        amounts.failure,
        amounts.infeasible,
        amounts.charge,
        amounts.adjustment,
    ])
}

fn added(mut totals: [i64; 10], cells: [i64; 10]) -> Result<[i64; 10], Stop> {
    for (total, cents) in totals.iter_mut().zip(&cells) {
        *total = total.checked_add(*cents).ok_or(Stop::TooLarge)?;
    }
    Ok(totals)
}
