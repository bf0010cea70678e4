// What a failed or infeasible quantity is charged.
//
// A default rule promises one amount for each board and quantity that it takes, never below the cents of the day-ahead price and never above the
// cents of the top price, and refuses nothing else than its contract names. The highest rule charges the top price, the day-ahead rule the day-ahead
// price.
#![tactic(auto)]

ghost use Rattle.defaults.specs.Charges.{Takes, Within, charge_refused, at_top_price, at_day_ahead_price};
ghost use Rattle.pricing.specs.Boards.{PlainBoard};
ghost use Rattle.pricing.specs.Cents.{cents_of};
ghost use Rattle.refusals.specs.Refused.{Gives};
ghost use Rattle.std.specs.Fn.{FnOnceReturnsAt};
ghost use Rattle.std.specs.Prelude.{ℕ, IsOk};
ghost use Rattle.defaults.specs.Limits.{day_ahead_price_within, top_price_within};

use pricing::board::Board;
use pricing::cents::cents;
use refusals::Refusal;

// The largest quantity that a default rule takes, in tenths of a MW.
pub const MOST_QUANTITY: u32 = 200_000;

pub trait DefaultRule {
    // The cents charged for a board and a quantity in tenths of a MW.
    ghost charge: { PlainBoard → ℕ → ℕ };

    fn charged(board: &Board, tenths: u32) -> Result<u64, Refusal>
        ensures { Gives (charge_refused board.now tenths) (charge board.now tenths) result };

    ghost within: { (board : PlainBoard) (tenths : ℕ) → Takes board tenths → Within board tenths (charge board tenths) };
}

// What a quantity is charged at a price that is read off the board, where a default rule takes it. It takes how the price is read, and not the price, so that
// a refused charge reads none.
fn charged_at<P: FnOnce(&Board) -> u32>(
    price: P,
    board: &Board,
    tenths: u32,
) -> Result<u64, Refusal>
    requires { P.IsAlwaysCallable price }
    ensures { (read : ℕ) × Gives (charge_refused board.now tenths) (cents_of read tenths) result × (IsOk result → FnOnceReturnsAt P.FnOnce price board.now read) }
{
    if tenths > MOST_QUANTITY {
        return Err(Refusal::QuantityAboveLimit);
    }
    if board.cleared() == 0 {
        return Err(Refusal::DayAheadNotCleared);
    }
    Ok(cents(price(board), tenths))
}

pub struct Highest;

impl DefaultRule for Highest {
    ghost charge = { at_top_price };

    ghost within = { top_price_within };

    fn charged(board: &Board, tenths: u32) -> Result<u64, Refusal> {
        charged_at(Board::top_price, board, tenths)
    }
}

pub struct DayAhead;

impl DefaultRule for DayAhead {
    ghost charge = { at_day_ahead_price };

    ghost within = { day_ahead_price_within };

    fn charged(board: &Board, tenths: u32) -> Result<u64, Refusal> {
        charged_at(Board::day_ahead_price, board, tenths)
    }
}
