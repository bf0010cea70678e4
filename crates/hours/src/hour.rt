// Whole hours: each filed call by call, worked out under both sharing rules, and printed as a table of QSEs by amounts.
use crate::filing::{COURSE_HOUR, Filing, UNEVEN_HOUR};
use crate::table::write_statements;
use defaults::{DayAhead, Highest};
use largest_remainder::LargestRemainder;
use pricing::board::Board;
use printing::{Stop, sum};
use roster::roster::Roster;
use running::Running;
use statement::amounts::Row;
use statement::statement::Statement;
use std::io::Write;
use text::Dollars;

pub fn settle_hours<W: Write>(out: &mut W) -> Result<(), Stop> {
    writeln!(
        out,
        "\nCost allocation and adjustment: non-spin reserve, hour 7\n  NSCOST = NSPR * NSQ, where NSPR = NSCOSTTOT / NSQTOT\n  RTNSAMT = NSCOST - DANSAMT"
    )?;
    let statement = settle(out, COURSE_HOUR)?;
    if let [first, ..] = statement.rows() {
        write_share(out, first)?;
    }
    writeln!(out, "\nAn hour that does not divide: regulation up, hour 3")?;
    settle(out, UNEVEN_HOUR)?;
    Ok(())
}

// Files the calls, works the hour out under both sharing rules and prints both statements; answers the one by the running rule.
fn settle<W: Write>(out: &mut W, filings: &[Filing]) -> Result<Statement, Stop> {
    let mut board = Board::new();
    let mut roster = Roster::new();
    for filing in filings {
        writeln!(out, "  {filing}")?;
        filing.file(&mut board, &mut roster)?;
    }
    let running = Statement::work_out::<Running, Highest, DayAhead>(&board, &roster)?;
    let largest = Statement::work_out::<LargestRemainder, Highest, DayAhead>(&board, &roster)?;
    write_statements(out, &running, &largest)?;
    Ok(running)
}

// A QSE's cost share, and the day-ahead charge and the adjustment that it is made of.
fn write_share<W: Write>(out: &mut W, row: &Row) -> Result<(), Stop> {
    let qse = row.qse;
    let share = Dollars::from(sum(&[row.amounts.charge, row.amounts.adjustment])?);
    let charge = Dollars::from(row.amounts.charge);
    let adjustment = Dollars::from(row.amounts.adjustment);
    writeln!(
        out,
        "  QSE {qse}: cost share {share}, of which {charge} day-ahead, adjustment {adjustment}"
    )?;
    Ok(())
}
