// The course's examples, each with its inputs, its equation and its result.
use crate::amounts::over_hours;
use defaults::{DayAhead, DefaultRule, Highest};
use pricing::board::Board;
use pricing::board::interval::Interval;
use pricing::cents::cents;
use pricing::limits::INTERVALS;
use printing::Stop;
use refusals::Refusal;
use std::io::Write;
use text::{Dollars, Megawatts};

#[derive(Clone, Copy)]
struct Example {
    title: &'static str,
    equation: &'static str,
    rows: &'static [Row],
}

// A quantity in tenths of a MW, settled in the same way for some hours.
#[derive(Clone, Copy)]
struct Row {
    tenths: u32,
    hours: u8,
    settlement: Settlement,
}

#[derive(Clone, Copy)]
enum Settlement {
    Charged {
        price: u32,
    },
    Paid {
        price: u32,
    },
    // by the highest rule, on a board with these prices and this average
    Failed {
        prices: &'static [u32],
        average: u32,
    },
    // by the day-ahead rule
    Infeasible {
        price: u32,
    },
}

const EXAMPLES: [Example; 6] = [
    Example {
        title: "Day-ahead procurement: regulation down, hour 17, 8.0 MW less 1.5 MW self-arranged",
        equation: "DARDAMT = DARDPR * DARDQ, where DARDQ = DARDO - DASARDQ",
        rows: &[Row {
            tenths: 80 - 15,
            hours: 1,
            settlement: Settlement::Charged { price: 3_800 },
        }],
    },
    Example {
        title: "Day-ahead award: responsive reserve, hour 16",
        equation: "PCRRAMT = (-1) * MCPCRR * PCRR",
        rows: &[Row {
            tenths: 550,
            hours: 1,
            settlement: Settlement::Paid { price: 7_700 },
        }],
    },
    Example {
        title: "Supplemental award: regulation up, hours 13 to 24",
        equation: "RTPCRUAMT = (-1) * MCPCRU * RTPCRU",
        rows: &[
            Row {
                tenths: 90,
                hours: 8,
                settlement: Settlement::Paid { price: 11_100 },
            },
            Row {
                tenths: 90,
                hours: 4,
                settlement: Settlement::Paid { price: 4_600 },
            },
        ],
    },
    Example {
        title: "Failure: contingency reserve, hour 18",
        equation: "ECRFQAMT = max(MCPCECR, AVGRTASIP) * (ECRFQ + TECRFQ)",
        rows: &[Row {
            tenths: 290,
            hours: 1,
            settlement: Settlement::Failed {
                prices: &[4_500, 9_800],
                average: 300,
            },
        }],
    },
    Example {
        title: "Failure: non-spin reserve, one hour",
        equation: "NSFQAMT = max(MCPCNS, AVGRTASIP) * (NSFQ + TNSFQ)",
        rows: &[Row {
            tenths: 250,
            hours: 1,
            settlement: Settlement::Failed {
                prices: &[3_000, 30_000, 300_000],
                average: 90_000,
            },
        }],
    },
    Example {
        title: "Infeasible quantity: regulation down, hours 15 to 24",
        equation: "RDINFQAMT = MCPCRD * RDINFQ",
        rows: &[
            Row {
                tenths: 140,
                hours: 5,
                settlement: Settlement::Infeasible { price: 5_500 },
            },
            Row {
                tenths: 140,
                hours: 5,
                settlement: Settlement::Infeasible { price: 2_300 },
            },
        ],
    },
];

pub fn write_examples<W: Write>(out: &mut W) -> Result<(), Stop> {
    for example in EXAMPLES {
        write_example(out, example)?;
    }
    Ok(())
}

fn write_example<W: Write>(out: &mut W, example: Example) -> Result<(), Stop> {
    let Example {
        title,
        equation,
        rows,
    } = example;
    writeln!(out, "\n{title}\n  {equation}")?;
    let mut total: i64 = 0;
    for row in rows {
        let amount = write_row(out, row)?;
        total = total.checked_add(amount).ok_or(Stop::TooLarge)?;
    }
    let amount = Dollars::from(total);
    writeln!(out, "  amount {amount}")?;
    Ok(())
}

fn write_row<W: Write>(out: &mut W, row: &Row) -> Result<i64, Stop> {
    if let Settlement::Failed { prices, average } = row.settlement {
        write_board(out, &board_with(prices, average)?)?;
    }
    let (price, cents) = settle(row)?;
    let quantity = Megawatts::from(row.tenths);
    let price = Dollars::from(price);
    let amount = Dollars::from(cents);
    let hours = row.hours;
    let unit = if hours == 1 { "hour" } else { "hours" };
    writeln!(
        out,
        "  {hours} {unit}, {quantity} at {price} per MW: {amount}"
    )?;
    Ok(cents)
}

// The price that a row is settled at, and its amount.
fn settle(row: &Row) -> Result<(u32, i64), Stop> {
    match row.settlement {
        Settlement::Charged { price } => Ok((
            price,
            over_hours(cents(price, row.tenths), row.hours)?,
        )),
        Settlement::Paid { price } => Ok((
            price,
            -over_hours(cents(price, row.tenths), row.hours)?,
        )),
        Settlement::Failed { prices, average } => {
            let board = board_with(prices, average)?;
            Ok((
                board.top_price(),
                over_hours(Highest::charged(&board, row.tenths)?, row.hours)?,
            ))
        }
        Settlement::Infeasible { price } => {
            let mut board = Board::new();
            board.clear(price)?;
            Ok((
                board.day_ahead_price(),
                over_hours(DayAhead::charged(&board, row.tenths)?, row.hours)?,
            ))
        }
    }
}

// A board with these markets cleared, and an average that each interval shares.
fn board_with(prices: &[u32], average: u32) -> Result<Board, Refusal> {
    let mut board = Board::new();
    for &price in prices {
        board.clear(price)?;
    }
    // By index, since the call takes the number of the interval.
    for which in 0..INTERVALS {
        board.interval(
            which,
            Interval {
                online: average,
                reliability: 0,
            },
        )?;
    }
    Ok(board)
}

// What a board's markets cleared at, and its average where there is one.
pub fn write_board<W: Write>(out: &mut W, board: &Board) -> Result<(), Stop> {
    for (market, price) in board.prices().iter().enumerate() {
        let price = Dollars::from(*price);
        writeln!(out, "  market {market} cleared at {price} per MW")?;
    }
    if let Some(average) = board.average() {
        let average = Dollars::from(average);
        writeln!(out, "  average real-time price {average} per MW")?;
    }
    Ok(())
}
