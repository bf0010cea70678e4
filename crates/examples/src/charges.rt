use crate::boards::file_intervals;
use defaults::{DayAhead, DefaultRule, Highest};
use pricing::board::Board;
use pricing::board::interval::Interval;
use refusals::Refusal;
use std::test::Fail;

// Prices of two markets, the sum that each interval has, a quantity, and the charges of the highest and of the day-ahead rule.
const CHARGES: [([u32; 2], u32, u32, u64, u64); 5] = [
    ([4_500, 9_800], 300, 290, 284_200, 130_500),
    ([3_000, 300_000], 90_000, 250, 7_500_000, 75_000),
    ([1, 2], 3, 5, 2, 1),
    ([4_500, 9_800], 300, 0, 0, 0),
    ([1_000_000, 0], 0, 200_000, 20_000_000_000, 20_000_000_000),
];

#[test]
fn a_failure_costs_the_top_price_and_an_infeasible_quantity_the_day_ahead_price(
    rt: HostRuntime,
) -> Result<(), Fail> {
    for (prices, sum, tenths, highest, day_ahead) in CHARGES {
        let mut board = Board::new();
        board.clear(prices[0])?;
        board.clear(prices[1])?;
        file_intervals(
            &mut board,
            [Interval {
                online: 0,
                reliability: sum,
            }; 4],
        )?;
        assert_eq!(rt; Highest::charged(&board, tenths), Ok(highest));
        assert_eq!(rt; DayAhead::charged(&board, tenths), Ok(day_ahead));
    }
    Ok(())
}

// A quantity, and the answer on a board with no cleared market.
const UNCLEARED: [(u32, Refusal); 4] = [
    (u32::MAX, Refusal::QuantityAboveLimit),
    (200_001, Refusal::QuantityAboveLimit),
    (200_000, Refusal::DayAheadNotCleared),
    (0, Refusal::DayAheadNotCleared),
];

#[test]
fn a_default_rule_refuses_by_quantity_and_then_by_board(rt: HostRuntime) -> Result<(), Fail> {
    for (tenths, refusal) in UNCLEARED {
        assert_eq!(rt; Highest::charged(&Board::new(), tenths), Err(refusal));
        assert_eq!(rt; DayAhead::charged(&Board::new(), tenths), Err(refusal));
    }
    let mut board = Board::new();
    board.clear(1)?;
    assert_eq!(rt;
        Highest::charged(&board, 200_001),
        Err(Refusal::QuantityAboveLimit)
    );
    assert_eq!(rt;
        DayAhead::charged(&board, 200_001),
        Err(Refusal::QuantityAboveLimit)
    );
    Ok(())
}
