ghost use Rattle.pricing.specs.Boards.{IntervalsKept, Kept, average_of, highest, price_of, day_ahead_price, top_price};
ghost use Rattle.pricing.specs.Limits.{most_markets, most_price};
ghost use Rattle.std.specs.Option.{unwrap_or};
ghost use Rattle.std.specs.Prelude.{◌≡◌, ◌≤◌, length};

use crate::board::Board;
use crate::board::interval::Interval;
use crate::limits::INTERVALS;

// The average price of the four intervals, none until all are filed. It asks of the four what the type of
// a board says of them, since it gets them alone.
fn average_of(intervals: [Option<Interval>; INTERVALS]) -> Option<u32>
    requires { IntervalsKept intervals }
    ensures value { result ≡ average_of intervals }
    ensures kept { unwrap_or result 0 ≤ most_price }
{
    // One pattern for the four, which four times `?` would be no plainer than.
    let [Some(a), Some(b), Some(c), Some(d)] = intervals else {
        return None;
    };
    let sum = a.both_prices() + b.both_prices() + c.both_prices() + d.both_prices();
    // Proved to fit: `try_from` would bring an error that cannot come.
    Some(((sum + 2) / 4) as u32)
}

// The highest of some prices, and 0 of none.
fn highest_of(prices: &[u32]) -> u32
    ensures { result ≡ highest prices.now }
{
    prices.iter().fold(0, |top, price| top.max(*price))
}

// A caller sees a board as its plain prices and intervals, so each reader says of its answer what the board keeps; a price of a type of its own would
// say it once, and be taken apart by every caller.
impl Board {
    // How many markets have cleared.
    pub fn cleared(&self) -> usize
        ensures value { result ≡ length self.now.prices }
        ensures few { result ≤ most_markets }
    {
        self.cleared
    }

    // The prices of the markets that have cleared, in turn.
    pub fn prices(&self) -> &[u32]
        ensures value { result.now ≡ self.now.prices }
        ensures kept { Kept self.now }
        ensures fair { IntervalsKept self.now.intervals }
    {
        &self.prices[..self.cleared]
    }

    // A cleared market's price.
    pub fn price(&self, market: usize) -> Option<u32>
        ensures value { result ≡ price_of self.now market }
        ensures kept { unwrap_or result 0 ≤ most_price }
    {
        self.prices().get(market).copied()
    }

    // The average price, none until all four intervals are filed.
    pub fn average(&self) -> Option<u32>
        ensures value { result ≡ average_of self.now.intervals }
        ensures kept { unwrap_or result 0 ≤ most_price }
    {
        average_of(self.intervals)
    }

    // Market 0's price, and 0 where no market has cleared.
    pub fn day_ahead_price(&self) -> u32
        ensures value { result ≡ day_ahead_price self.now }
        ensures kept { result ≤ most_price }
    {
        self.price(0).unwrap_or(0)
    }

    // The highest cleared price, and 0 where no market has cleared.
    fn highest_price(&self) -> u32
        ensures value { result ≡ highest self.now.prices }
        ensures kept { result ≤ most_price }
    {
        highest_of(self.prices())
    }

    // The highest cleared price, or the average where there is one and it is higher.
    pub fn top_price(&self) -> u32
        ensures value { result ≡ top_price self.now }
        ensures kept { result ≤ most_price }
    {
        self.highest_price().max(self.average().unwrap_or(0))
    }
}
