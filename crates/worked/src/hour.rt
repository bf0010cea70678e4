// One hour from beginning to end: its prices, what its quantities cost, and the shares of that cost under both sharing rules.
use crate::amounts::three_parts;
use crate::course::write_board;
use defaults::{DayAhead, DefaultRule};
use largest_remainder::LargestRemainder;
use pricing::board::Board;
use pricing::cents::cents;
use printing::{Stop, sum};
use refusals::Refusal;
use running::Running;
use std::io::Write;
use text::{Dollars, Megawatts};

// What the hour's quantities cost, in cents.
#[derive(Clone, Copy)]
struct Costs {
    day_ahead: i64,
    supplemental: i64,
    infeasible: i64,
}

impl Costs {
    fn on(board: &Board) -> Result<Costs, Stop> {
        let supplemental_price = board.price(1).ok_or(Refusal::NoSuchPlace)?;
        Ok(Costs {
            day_ahead: i64::try_from(cents(board.day_ahead_price(), DAY_AHEAD.tenths))?,
            supplemental: i64::try_from(cents(supplemental_price, SUPPLEMENTAL.tenths))?,
            infeasible: i64::try_from(DayAhead::charged(board, INFEASIBLE.tenths)?)?,
        })
    }

    // What was bought costs, less what the infeasible quantity is charged.
    fn net(self) -> Result<i64, Stop> {
        self.day_ahead
            .checked_add(self.supplemental)
            .and_then(|bought| bought.checked_sub(self.infeasible))
            .ok_or(Stop::TooLarge)
    }
}

// The hour's quantities: bought day-ahead, bought in the supplemental market, and infeasible.
const DAY_AHEAD: Megawatts = Megawatts { tenths: 9_900 };

const SUPPLEMENTAL: Megawatts = Megawatts { tenths: 100 };

const INFEASIBLE: Megawatts = Megawatts { tenths: 100 };

const BOUGHT: Megawatts = Megawatts {
    tenths: DAY_AHEAD.tenths + SUPPLEMENTAL.tenths,
};

// The course's cost allocation: non-spin reserve bought day-ahead and in one supplemental market, less what an infeasible quantity is charged.
pub fn settle<W: Write>(out: &mut W) -> Result<(), Stop> {
    writeln!(
        out,
        "\nOne hour from beginning to end: non-spin reserve, hour 7\n  NSCOST = NSPR * NSQ, where NSPR = NSCOSTTOT / NSQTOT"
    )?;
    let board = corrected_board(out)?;
    let costs = Costs::on(&board)?;
    let net = costs.net()?;
    for (quantity, what, cents) in [
        (DAY_AHEAD, "bought day-ahead", costs.day_ahead),
        (
            SUPPLEMENTAL,
            "bought in the supplemental market",
            costs.supplemental,
        ),
        (
            INFEASIBLE,
            "infeasible, charged at the day-ahead price",
            costs.infeasible,
        ),
        (BOUGHT, "bought, net cost to share by open quantity", net),
    ] {
        let cost = Dollars::from(cents);
        writeln!(out, "  {quantity} {what}: {cost}")?;
    }
    write_shares(out, net, [1_010, 3_333, 5_657])
}

// The hour's board, whose day-ahead price is corrected after both markets have cleared.
fn corrected_board<W: Write>(out: &mut W) -> Result<Board, Stop> {
    let mut board = Board::new();
    board.clear(900)?;
    board.clear(12_000)?;
    write_board(out, &board)?;
    board.correct(0, 1_000)?;
    let corrected = Dollars::from(board.day_ahead_price());
    writeln!(out, "  market 0 corrected to {corrected} per MW")?;
    Ok(board)
}

// The shares of a cost under both rules, and what they add up to.
fn write_shares<W: Write>(out: &mut W, cents: i64, open_tenths: [u32; 3]) -> Result<(), Stop> {
    let weights = open_tenths.map(i64::from);
    let running = three_parts::<Running>(cents, weights)?;
    let largest = three_parts::<LargestRemainder>(cents, weights)?;
    for ((open, first), second) in open_tenths.iter().zip(&running).zip(&largest) {
        let open = Megawatts::from(*open);
        let first = Dollars::from(*first);
        let second = Dollars::from(*second);
        writeln!(
            out,
            "  {open} open: running {first}, largest remainder {second}"
        )?;
    }
    let first = Dollars::from(sum(&running)?);
    let second = Dollars::from(sum(&largest)?);
    writeln!(
        out,
        "  together: running {first}, largest remainder {second}"
    )?;
    Ok(())
}

// Where a total does not divide, the rules differ by a cent and neither loses one.
pub fn leave_no_cent<W: Write>(out: &mut W) -> Result<(), Stop> {
    writeln!(out, "\nA dollar over three equal open quantities")?;
    write_shares(out, 100, [1, 1, 1])?;
    writeln!(out, "\nA dollar paid back over three equal open quantities")?;
    write_shares(out, -100, [1, 1, 1])
}
