use crate::boards::file_intervals;
use crate::rosters;
use defaults::{DayAhead, Highest};
use largest_remainder::LargestRemainder;
use pricing::board::Board;
use pricing::board::interval::Interval;
use refusals::Refusal;
use roster::roster::Roster;
use running::Running;
use sharing::SharingRule;
use statement::amounts::Row;
use statement::statement::Statement;
use std::process::Abort;
use std::test::Fail;

// The six amounts of a row.
fn amounts(row: &Row) -> [i64; 6] {
    [
        row.amounts.award,
        row.amounts.supplemental,
        row.amounts.failure,
        row.amounts.infeasible,
        row.amounts.charge,
        row.amounts.adjustment,
    ]
}

// Three QSEs have these numbers and these amounts.
fn works_out<S: SharingRule>(
    rt: &impl Abort,
    board: &Board,
    roster: &Roster,
    numbers: [u16; 3],
    expected: [[i64; 6]; 3],
) -> Result<(), Fail> {
    let statement = Statement::work_out::<S, Highest, DayAhead>(board, roster)?;
    match statement.rows() {
        [first, second, third] => {
            assert_eq!(rt; [first.qse, second.qse, third.qse], numbers);
            assert_eq!(rt; amounts(first), expected[0]);
            assert_eq!(rt; amounts(second), expected[1]);
            assert_eq!(rt; amounts(third), expected[2]);
            Ok(())
        }
        _ => {
            assert!(rt; false);
            Ok(())
        },
    }
}

// What the statement is refused with, none where it is worked out.
fn refusal_of(board: &Board, roster: &Roster) -> Option<Refusal> {
    Statement::work_out::<Running, Highest, DayAhead>(board, roster).err()
}

// QSE 7 has load 60 and obligation 60, QSE 9 has 40 and 40, QSE 3 has nothing.
fn enrolled() -> Result<Roster, Refusal> {
    let mut roster = rosters::enrolled()?;
    roster.enrol(3, 0, 0)?;
    Ok(roster)
}

// Market 1's price where it clears, what QSE 7 is awarded there, what 9 fails, what of 9 is infeasible, and the amounts of 7 and 9.
const WORKED: [(Option<u32>, u32, u32, u32, [i64; 6], [i64; 6]); 5] = [
    (
        None,
        0,
        0,
        0,
        [0, 0, 0, 0, 6_000, 0],
        [-10_000, 0, 0, 0, 4_000, 0],
    ),
    (
        Some(3_000),
        20,
        20,
        0,
        [0, -6_000, 0, 0, 6_000, 0],
        [-10_000, 0, 6_000, 0, 4_000, 0],
    ),
    (
        None,
        0,
        100,
        0,
        [0, 0, 0, 0, 6_000, -6_000],
        [-10_000, 0, 10_000, 0, 4_000, -4_000],
    ),
    (
        None,
        0,
        0,
        30,
        [0, 0, 0, 0, 6_000, -1_800],
        [-10_000, 0, 0, 3_000, 4_000, -1_200],
    ),
    (
        Some(3_000),
        0,
        99,
        0,
        [0, 0, 0, 0, 6_000, -25_700],
        [-10_000, 0, 29_700, 0, 4_000, -4_000],
    ),
];

#[test]
fn statements_are_worked_out_as_by_hand(rt: HostRuntime) -> Result<(), Fail> {
    for (price, later, failed, infeasible, seven, nine) in WORKED {
        let mut board = Board::new();
        board.clear(1_000)?;
        let mut roster = enrolled()?;
        if let Some(price) = price {
            board.clear(price)?;
            roster.award(&board, 7, 1, later)?;
        }
        roster.award(&board, 9, 0, 100)?;
        roster.fail(9, 0, failed)?;
        roster.fail(9, 1, infeasible)?;
        works_out::<Running>(&rt, &board, &roster, [7, 9, 3], [seven, nine, [0; 6]])?;
        works_out::<LargestRemainder>(&rt, &board, &roster, [7, 9, 3], [seven, nine, [0; 6]])?;
    }
    Ok(())
}

#[test]
fn a_net_cost_with_nothing_bought_is_refused(rt: HostRuntime) -> Result<(), Fail> {
    let mut board = Board::new();
    board.clear(1_000)?;
    let mut roster = enrolled()?;
    roster.award(&board, 9, 0, 100)?;
    roster.fail(9, 0, 101)?;
    assert_eq!(rt; refusal_of(&board, &roster), Some(Refusal::NothingBought));
    Ok(())
}

// The price is a cent above a dollar, so that no rule divides the cost evenly.
#[test]
fn the_rules_leave_the_cents_to_different_members(rt: HostRuntime) -> Result<(), Fail> {
    let mut board = Board::new();
    board.clear(101)?;
    let mut roster = Roster::new();
    roster.enrol(7, 1, 1)?;
    roster.enrol(9, 1, 1)?;
    roster.enrol(3, 1, 1)?;
    roster.award(&board, 9, 0, 10)?;
    works_out::<Running>(
        &rt,
        &board,
        &roster,
        [7, 9, 3],
        [
            [0, 0, 0, 0, 34, -4],
            [-101, 0, 0, 0, 33, 8],
            [0, 0, 0, 0, 34, -4],
        ],
    )?;
    works_out::<LargestRemainder>(
        &rt,
        &board,
        &roster,
        [7, 9, 3],
        [
            [0, 0, 0, 0, 34, 7],
            [-101, 0, 0, 0, 34, -4],
            [0, 0, 0, 0, 33, -3],
        ],
    )
}

// QSE 7 arranges more than its part of the requirement, so that its open quantity is below 0; the average is the top price.
#[test]
fn a_negative_open_quantity_is_paid(rt: HostRuntime) -> Result<(), Fail> {
    let mut board = rosters::cleared()?;
    file_intervals(
        &mut board,
        [Interval {
            online: 3_000,
            reliability: 400,
        }; 4],
    )?;
    let mut roster = rosters::enrolled()?;
    roster.enrol(3, 33, 10)?;
    roster.award(&board, 7, 1, 20)?;
    roster.award(&board, 9, 0, 100)?;
    roster.award(&board, 3, 0, 7)?;
    roster.arrange(7, 0, 40)?;
    roster.arrange(7, 1, 90)?;
    roster.arrange(3, 1, 1)?;
    roster.fail(7, 1, 5)?;
    roster.fail(9, 0, 20)?;
    roster.fail(3, 0, 3)?;
    roster.fail(3, 1, 2)?;
    works_out::<Running>(
        &rt,
        &board,
        &roster,
        [7, 9, 3],
        [
            [0, -6_000, 0, 500, 3_057, -4_945],
            [-10_000, 0, 6_800, 0, 6_114, -529],
            [-700, 0, 1_020, 200, 1_529, 2_954],
        ],
    )
}

#[test]
fn a_statement_is_refused_in_the_order_of_the_numbers(rt: HostRuntime) -> Result<(), Fail> {
    let mut board = Board::new();
    let mut roster = Roster::new();
    assert_eq!(rt;
        refusal_of(&board, &roster),
        Some(Refusal::DayAheadNotCleared)
    );
    board.clear(1_000)?;
    assert_eq!(rt; refusal_of(&board, &roster), None);
    roster.enrol(7, 0, 60)?;
    roster.award(&board, 7, 0, 100)?;
    roster.arrange(7, 0, 60)?;
    roster.fail(7, 0, 101)?;
    assert_eq!(rt;
        refusal_of(&board, &roster),
        Some(Refusal::NothingOpenDayAhead)
    );
    roster.arrange(7, 0, 59)?;
    assert_eq!(rt; refusal_of(&board, &roster), Some(Refusal::NothingBought));
    roster.fail(7, 0, 99)?;
    assert_eq!(rt; refusal_of(&board, &roster), Some(Refusal::NoLoad));
    roster.fail(7, 0, 100)?;
    assert_eq!(rt; refusal_of(&board, &roster), None);
    roster.fail(7, 0, 99)?;
    roster.load(7, 1)?;
    assert_eq!(rt; refusal_of(&board, &roster), None);
    Ok(())
}
