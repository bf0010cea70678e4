// The calls that an hour is filed by: two hours of them, what is printed of each, and filing it.
use pricing::board::Board;
use pricing::board::interval::Interval;
use refusals::Refusal;
use roster::kind::Kind;
use roster::roster::Roster;
use roster::side::Side;
use std::fmt;
use text::{Dollars, Megawatts};

#[derive(Clone, Copy)]
pub enum Filing {
    Clear(u32),
    // a market and its price
    Correct(usize, u32),
    // which interval, and its two prices
    Interval(usize, Interval),
    // a QSE, its load and its day-ahead obligation
    Enrol(u16, u32, u32),
    // a QSE, a market and a quantity
    Award(u16, usize, u32),
    // a QSE, a side and a quantity
    Arrange(u16, Side, u32),
    // a QSE, a kind and a quantity
    Fail(u16, Kind, u32),
}

// The course's cost allocation and adjustment: QSE 1 has 10% of the load and arranged 80 MW; the pool arranged 810 MW and bought 990 MW day-ahead and 10 MW
// later, because 10 MW were infeasible. The day-ahead price is corrected after both markets have cleared.
pub const COURSE_HOUR: &[Filing] = &[
    Filing::Clear(900),
    Filing::Clear(12_000),
    Filing::Enrol(1, 1_000, 2_100),
    Filing::Enrol(2, 2_999, 5_300),
    Filing::Enrol(3, 6_001, 10_600),
    Filing::Arrange(1, Side::DayAhead, 800),
    Filing::Arrange(2, Side::DayAhead, 2_100),
    Filing::Arrange(3, Side::DayAhead, 5_200),
    Filing::Award(2, 0, 3_900),
    Filing::Award(3, 0, 6_000),
    Filing::Award(3, 1, 100),
    Filing::Fail(2, Kind::Infeasible, 100),
    Filing::Correct(0, 1_000),
];

// Three QSEs with equal loads, whose shares no rule divides evenly.
pub const UNEVEN_HOUR: &[Filing] = &[
    Filing::Enrol(7, 100, 100),
    Filing::Enrol(9, 100, 100),
    Filing::Enrol(12, 100, 100),
    Filing::Clear(1_003),
    Filing::Clear(3_333),
    Filing::Interval(
        0,
        Interval {
            online: 3_000,
            reliability: 400,
        },
    ),
    Filing::Interval(
        1,
        Interval {
            online: 3_000,
            reliability: 400,
        },
    ),
    Filing::Interval(
        2,
        Interval {
            online: 3_100,
            reliability: 300,
        },
    ),
    Filing::Interval(
        3,
        Interval {
            online: 3_000,
            reliability: 401,
        },
    ),
    Filing::Award(9, 0, 200),
    Filing::Award(12, 1, 50),
    Filing::Arrange(7, Side::DayAhead, 40),
    Filing::Arrange(12, Side::Later, 10),
    Filing::Fail(9, Kind::Failed, 25),
    Filing::Fail(7, Kind::Infeasible, 10),
];

impl Filing {
    pub fn file(self, board: &mut Board, roster: &mut Roster) -> Result<(), Refusal> {
        match self {
            Filing::Clear(price) => board.clear(price),
            Filing::Correct(market, price) => board.correct(market, price),
            Filing::Interval(which, interval) => board.interval(which, interval),
            Filing::Enrol(qse, load, obligation) => roster.enrol(qse, load, obligation),
            Filing::Award(qse, market, tenths) => roster.award(board, qse, market, tenths),
            Filing::Arrange(qse, side, tenths) => roster.arrange(qse, usize::from(side), tenths),
            Filing::Fail(qse, kind, tenths) => roster.fail(qse, usize::from(kind), tenths),
        }
    }
}

impl fmt::Display for Filing {
    fn fmt<W: fmt::Write>(&self, f: &mut fmt::Formatter<W>) -> fmt::Result {
        match *self {
            Filing::Clear(price) => {
                let price = Dollars::from(price);
                write!(f, "the next market clears at {price} per MW")
            }
            Filing::Correct(market, price) => {
                let price = Dollars::from(price);
                write!(f, "market {market} is corrected to {price} per MW")
            }
            Filing::Interval(which, interval) => {
                let online = Dollars::from(interval.online);
                let reliability = Dollars::from(interval.reliability);
                write!(
                    f,
                    "interval {which}: on-line {online}, reliability {reliability} per MW"
                )
            }
            Filing::Enrol(qse, load, tenths) => {
                let obligation = Megawatts::from(tenths);
                write!(
                    f,
                    "QSE {qse} enrols with {load} MWh of load and {obligation} day-ahead obligation"
                )
            }
            Filing::Award(qse, market, tenths) => {
                let quantity = Megawatts::from(tenths);
                write!(f, "QSE {qse} is awarded {quantity} in market {market}")
            }
            Filing::Arrange(qse, side, tenths) => {
                let quantity = Megawatts::from(tenths);
                write!(f, "QSE {qse} arranges {quantity} {side}")
            }
            Filing::Fail(qse, kind, tenths) => {
                let quantity = Megawatts::from(tenths);
                write!(f, "QSE {qse} has {quantity} {kind}")
            }
        }
    }
}
