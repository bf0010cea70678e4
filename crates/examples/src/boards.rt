use pricing::board::Board;
use pricing::board::interval::Interval;
use refusals::Refusal;
use std::test::Fail;

// Files the four intervals of the hour.
pub(crate) fn file_intervals(board: &mut Board, intervals: [Interval; 4]) -> Result<(), Refusal> {
    for (which, interval) in intervals.into_iter().enumerate() {
        board.interval(which, interval)?;
    }
    Ok(())
}

// An interval whose two prices add up to this sum.
fn halves(sum: u32) -> Interval {
    let online = sum / 2;
    Interval {
        online,
        reliability: sum - online,
    }
}

// A board with four intervals whose two prices add up to these sums.
fn filed(sums: [u32; 4]) -> Result<Board, Refusal> {
    let mut board = Board::new();
    file_intervals(&mut board, sums.map(halves))?;
    Ok(board)
}

// Four sums, and their average.
const AVERAGES: [([u32; 4], u32); 5] = [
    ([1, 0, 0, 1], 1),
    ([1, 0, 0, 0], 0),
    ([0, 3, 0, 0], 1),
    ([1_000_000; 4], 1_000_000),
    ([999_999, 1_000_000, 999_999, 1_000_000], 1_000_000),
];

#[test]
fn the_average_rounds_a_half_up(rt: HostRuntime) -> Result<(), Fail> {
    for (sums, average) in AVERAGES {
        assert_eq!(rt; filed(sums)?.average(), Some(average));
    }
    Ok(())
}

#[test]
fn there_is_no_average_until_all_four_are_filed(rt: HostRuntime) -> Result<(), Fail> {
    let mut board = Board::new();
    for which in [3, 2, 1, 0] {
        assert_eq!(rt; board.average(), None);
        board.interval(
            which,
            Interval {
                online: 10,
                reliability: 6,
            },
        )?;
    }
    assert_eq!(rt; board.average(), Some(16));
    board.interval(
        2,
        Interval {
            online: 0,
            reliability: 0,
        },
    )?;
    assert_eq!(rt; board.average(), Some(12));
    Ok(())
}

// Which interval, its two prices, and the answer.
const INTERVALS: [(usize, u32, u32, Result<(), Refusal>); 8] = [
    (4, 1, 0, Err(Refusal::NoSuchPlace)),
    (4, u32::MAX, 0, Err(Refusal::NoSuchPlace)),
    (usize::MAX, 0, 0, Err(Refusal::NoSuchPlace)),
    (3, 1, 1_000_000, Err(Refusal::PriceAboveLimit)),
    (0, 1_000_001, 0, Err(Refusal::PriceAboveLimit)),
    (3, u32::MAX, 1, Err(Refusal::PriceAboveLimit)),
    (3, u32::MAX, u32::MAX, Err(Refusal::PriceAboveLimit)),
    (3, 1, 999_999, Ok(())),
];

#[test]
fn an_interval_is_refused_by_its_place_and_then_by_its_sum(rt: HostRuntime) -> Result<(), Fail> {
    for (which, online, reliability, answer) in INTERVALS {
        let mut board = filed([8; 4])?;
        assert_eq!(rt;
            board.interval(
                which,
                Interval {
                    online,
                    reliability,
                },
            ),
            answer
        );
        let average = if answer.is_ok() { 250_006 } else { 8 };
        assert_eq!(rt; board.average(), Some(average));
    }
    Ok(())
}

// The loop counts, since the market's own number is what is asked for.
#[test]
fn eight_markets_clear_in_turn(rt: HostRuntime) -> Result<(), Fail> {
    let mut board = Board::new();
    for market in 0..8 {
        assert_eq!(rt; board.clear(1_000_001), Err(Refusal::PriceAboveLimit));
        assert_eq!(rt; board.cleared(), market);
        assert_eq!(rt; board.price(market), None);
        board.clear(1_000_000)?;
        assert_eq!(rt; board.price(market), Some(1_000_000));
    }
    assert_eq!(rt; board.clear(5), Err(Refusal::NoSuchPlace));
    assert_eq!(rt; board.clear(1_000_001), Err(Refusal::NoSuchPlace));
    assert_eq!(rt; board.cleared(), 8);
    Ok(())
}

// A market, a price, the answer, and the prices of markets 0 and 1 after it.
const CORRECTIONS: [(usize, u32, Result<(), Refusal>, u32, u32); 6] = [
    (2, 5, Err(Refusal::NoSuchPlace), 7, 8),
    (2, 1_000_001, Err(Refusal::NoSuchPlace), 7, 8),
    (usize::MAX, 5, Err(Refusal::NoSuchPlace), 7, 8),
    (1, 1_000_001, Err(Refusal::PriceAboveLimit), 7, 8),
    (1, 1_000_000, Ok(()), 7, 1_000_000),
    (0, 0, Ok(()), 0, 8),
];

#[test]
fn only_a_cleared_market_is_corrected(rt: HostRuntime) -> Result<(), Fail> {
    for (market, price, answer, first, second) in CORRECTIONS {
        let mut board = Board::new();
        board.clear(7)?;
        board.clear(8)?;
        assert_eq!(rt; board.correct(market, price), answer);
        assert_eq!(rt; board.price(0), Some(first));
        assert_eq!(rt; board.price(1), Some(second));
        assert_eq!(rt; board.price(2), None);
    }
    Ok(())
}

// Prices cleared in turn after an average of 3, and the top price after each.
const TOPS: [(u32, u32); 4] = [(2, 3), (9, 9), (4, 9), (3, 9)];

#[test]
fn the_top_price_is_the_highest_cleared_or_the_average(rt: HostRuntime) -> Result<(), Fail> {
    assert_eq!(rt; Board::new().top_price(), 0);
    let mut board = filed([3; 4])?;
    assert_eq!(rt; board.day_ahead_price(), 0);
    assert_eq!(rt; board.top_price(), 3);
    for (price, top) in TOPS {
        board.clear(price)?;
        assert_eq!(rt; board.top_price(), top);
        assert_eq!(rt; board.day_ahead_price(), 2);
    }
    board.correct(1, 1)?;
    assert_eq!(rt; board.top_price(), 4);
    Ok(())
}
