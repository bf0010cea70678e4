// The limits that the price board keeps.

// In cents per MW.
pub const MOST_PRICE: u32 = 1_000_000;

// The day-ahead market and seven supplemental ones.
pub const MOST_MARKETS: usize = 8;

// The quarter hours of an hour.
pub const INTERVALS: usize = 4;
