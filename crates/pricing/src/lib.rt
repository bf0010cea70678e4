// What a price and a quantity cost, and the price board of one service and hour.
//
// `cents` promises one amount for each price and quantity, and the laws that its callers rest on. The board's own type promises that no price on it,
// and no sum of an interval's two prices, is above the limit, so reading the board asks nothing of a caller.
#![tactic(auto)]

pub mod board;
pub mod cents;
pub mod limits;
