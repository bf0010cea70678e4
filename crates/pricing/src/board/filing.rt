ghost use Rattle.pricing.specs.Boards.{Clears, Corrects, Files, empty_board};
ghost use Rattle.std.specs.Prelude.{◌≡◌};

use crate::board::Board;
use crate::board::interval::Interval;
use crate::limits::{INTERVALS, MOST_MARKETS, MOST_PRICE};
use refusals::Refusal;

// A change works on a copy and writes it back whole, so the board is at no time half changed.
impl Board {
    pub fn new() -> Board
        ensures { result ≡ empty_board }
    {
        Board {
            prices: [0; MOST_MARKETS],
            cleared: 0,
            intervals: [None; INTERVALS],
        }
    }

    // The next market gets its price.
    pub fn clear(&mut self, price: u32) -> Result<(), Refusal>
        ensures { Clears self.old price result self.new }
    {
        if self.cleared >= MOST_MARKETS {
            return Err(Refusal::NoSuchPlace);
        }
        if price > MOST_PRICE {
            return Err(Refusal::PriceAboveLimit);
        }
        let mut board = *self;
        board.prices[board.cleared] = price;
        board.cleared += 1;
        *self = board;
        Ok(())
    }

    // A cleared market's price is replaced.
    pub fn correct(&mut self, market: usize, price: u32) -> Result<(), Refusal>
        ensures { Corrects self.old market price result self.new }
    {
        if market >= self.cleared {
            return Err(Refusal::NoSuchPlace);
        }
        if price > MOST_PRICE {
            return Err(Refusal::PriceAboveLimit);
        }
        let mut board = *self;
        board.prices[market] = price;
        *self = board;
        Ok(())
    }

    // An interval is filed, for the first time or again.
    pub fn interval(&mut self, which: usize, interval: Interval) -> Result<(), Refusal>
        ensures { Files self.old which interval result self.new }
    {
        if which >= INTERVALS {
            return Err(Refusal::NoSuchPlace);
        }
        if interval.both_prices() > u64::from(MOST_PRICE) {
            return Err(Refusal::PriceAboveLimit);
        }
        let mut board = *self;
        board.intervals[which] = Some(interval);
        *self = board;
        Ok(())
    }
}
