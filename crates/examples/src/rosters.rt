use pricing::board::Board;
use refusals::Refusal;
use roster::records::Record;
use roster::roster::Roster;
use std::process::Abort;
use std::test::Fail;

// A board on which two markets have cleared.
pub(crate) fn cleared() -> Result<Board, Refusal> {
    let mut board = Board::new();
    board.clear(1_000)?;
    board.clear(3_000)?;
    Ok(board)
}

// QSE 7 with load 60 and obligation 60, and QSE 9 with 40 and 40.
pub(crate) fn enrolled() -> Result<Roster, Refusal> {
    let mut roster = Roster::new();
    roster.enrol(7, 60, 60)?;
    roster.enrol(9, 40, 40)?;
    Ok(roster)
}

// The numbers of each filing call. Sides and kinds are numbers here too, since 2 is tried.
#[derive(Clone, Copy)]
enum Filing {
    Enrol(u16, u32, u32),
    Load(u16, u32),
    Award(u16, usize, u32),
    Arrange(u16, usize, u32),
    Fail(u16, usize, u32),
}

fn file(board: &Board, roster: &mut Roster, filing: Filing) -> Result<(), Refusal> {
    match filing {
        Filing::Enrol(qse, load, obligation) => roster.enrol(qse, load, obligation),
        Filing::Load(qse, load) => roster.load(qse, load),
        Filing::Award(qse, market, tenths) => roster.award(board, qse, market, tenths),
        Filing::Arrange(qse, side, tenths) => roster.arrange(qse, side, tenths),
        Filing::Fail(qse, kind, tenths) => roster.fail(qse, kind, tenths),
    }
}

// A record as its numbers: QSE, load, obligation, awards in markets 0, 1 and 2, arranged day-ahead and later, failed, infeasible.
fn numbers(record: &Record) -> [u32; 10] {
    [
        u32::from(record.qse),
        record.load,
        record.obligation,
        record.awards[0],
        record.awards[1],
        record.awards[2],
        record.arranged.ahead,
        record.arranged.later,
        record.failed,
        record.infeasible,
    ]
}

// A call, its answer, and the records of QSEs 7 and 9 after it.
type Filed = (Filing, Result<(), Refusal>, [u32; 10], [u32; 10]);

// The calls in turn, in the order of the tables.
const ENROLMENTS: &[Filed] = &[
    (
        Filing::Enrol(0, 1, 1),
        Err(Refusal::WrongQse),
        [7, 60, 60, 0, 0, 0, 0, 0, 0, 0],
        [9, 40, 40, 0, 0, 0, 0, 0, 0, 0],
    ),
    (
        Filing::Enrol(7, 1, 1),
        Err(Refusal::WrongQse),
        [7, 60, 60, 0, 0, 0, 0, 0, 0, 0],
        [9, 40, 40, 0, 0, 0, 0, 0, 0, 0],
    ),
    (
        Filing::Enrol(0, u32::MAX, u32::MAX),
        Err(Refusal::WrongQse),
        [7, 60, 60, 0, 0, 0, 0, 0, 0, 0],
        [9, 40, 40, 0, 0, 0, 0, 0, 0, 0],
    ),
    (
        Filing::Enrol(12, 199_901, 0),
        Err(Refusal::QuantityAboveLimit),
        [7, 60, 60, 0, 0, 0, 0, 0, 0, 0],
        [9, 40, 40, 0, 0, 0, 0, 0, 0, 0],
    ),
    (
        Filing::Enrol(12, 0, 199_901),
        Err(Refusal::QuantityAboveLimit),
        [7, 60, 60, 0, 0, 0, 0, 0, 0, 0],
        [9, 40, 40, 0, 0, 0, 0, 0, 0, 0],
    ),
    (
        Filing::Enrol(12, u32::MAX, u32::MAX),
        Err(Refusal::QuantityAboveLimit),
        [7, 60, 60, 0, 0, 0, 0, 0, 0, 0],
        [9, 40, 40, 0, 0, 0, 0, 0, 0, 0],
    ),
];

const LOADS: &[Filed] = &[
    (
        Filing::Load(8, 1),
        Err(Refusal::WrongQse),
        [7, 60, 60, 0, 0, 0, 0, 0, 0, 0],
        [9, 40, 40, 0, 0, 0, 0, 0, 0, 0],
    ),
    (
        Filing::Load(7, 199_961),
        Err(Refusal::QuantityAboveLimit),
        [7, 60, 60, 0, 0, 0, 0, 0, 0, 0],
        [9, 40, 40, 0, 0, 0, 0, 0, 0, 0],
    ),
    (
        Filing::Load(7, u32::MAX),
        Err(Refusal::QuantityAboveLimit),
        [7, 60, 60, 0, 0, 0, 0, 0, 0, 0],
        [9, 40, 40, 0, 0, 0, 0, 0, 0, 0],
    ),
    (
        Filing::Load(7, 199_960),
        Ok(()),
        [7, 199_960, 60, 0, 0, 0, 0, 0, 0, 0],
        [9, 40, 40, 0, 0, 0, 0, 0, 0, 0],
    ),
    (
        Filing::Load(7, 50),
        Ok(()),
        [7, 50, 60, 0, 0, 0, 0, 0, 0, 0],
        [9, 40, 40, 0, 0, 0, 0, 0, 0, 0],
    ),
];

const AWARDS: &[Filed] = &[
    (
        Filing::Award(8, 2, u32::MAX),
        Err(Refusal::WrongQse),
        [7, 50, 60, 0, 0, 0, 0, 0, 0, 0],
        [9, 40, 40, 0, 0, 0, 0, 0, 0, 0],
    ),
    (
        Filing::Award(7, 2, u32::MAX),
        Err(Refusal::NoSuchPlace),
        [7, 50, 60, 0, 0, 0, 0, 0, 0, 0],
        [9, 40, 40, 0, 0, 0, 0, 0, 0, 0],
    ),
    (
        Filing::Award(7, 0, 200_001),
        Err(Refusal::QuantityAboveLimit),
        [7, 50, 60, 0, 0, 0, 0, 0, 0, 0],
        [9, 40, 40, 0, 0, 0, 0, 0, 0, 0],
    ),
    (
        Filing::Award(7, 0, 200_000),
        Ok(()),
        [7, 50, 60, 200_000, 0, 0, 0, 0, 0, 0],
        [9, 40, 40, 0, 0, 0, 0, 0, 0, 0],
    ),
    (
        Filing::Award(9, 1, 1),
        Err(Refusal::QuantityAboveLimit),
        [7, 50, 60, 200_000, 0, 0, 0, 0, 0, 0],
        [9, 40, 40, 0, 0, 0, 0, 0, 0, 0],
    ),
    (
        Filing::Award(7, 0, 199_999),
        Ok(()),
        [7, 50, 60, 199_999, 0, 0, 0, 0, 0, 0],
        [9, 40, 40, 0, 0, 0, 0, 0, 0, 0],
    ),
    (
        Filing::Award(9, 1, 1),
        Ok(()),
        [7, 50, 60, 199_999, 0, 0, 0, 0, 0, 0],
        [9, 40, 40, 0, 1, 0, 0, 0, 0, 0],
    ),
    (
        Filing::Award(9, 8, 0),
        Err(Refusal::NoSuchPlace),
        [7, 50, 60, 199_999, 0, 0, 0, 0, 0, 0],
        [9, 40, 40, 0, 1, 0, 0, 0, 0, 0],
    ),
];

const ARRANGEMENTS: &[Filed] = &[
    (
        Filing::Arrange(8, 2, u32::MAX),
        Err(Refusal::WrongQse),
        [7, 50, 60, 199_999, 0, 0, 0, 0, 0, 0],
        [9, 40, 40, 0, 1, 0, 0, 0, 0, 0],
    ),
    (
        Filing::Arrange(7, 2, u32::MAX),
        Err(Refusal::NoSuchPlace),
        [7, 50, 60, 199_999, 0, 0, 0, 0, 0, 0],
        [9, 40, 40, 0, 1, 0, 0, 0, 0, 0],
    ),
    (
        Filing::Arrange(7, 0, 200_001),
        Err(Refusal::QuantityAboveLimit),
        [7, 50, 60, 199_999, 0, 0, 0, 0, 0, 0],
        [9, 40, 40, 0, 1, 0, 0, 0, 0, 0],
    ),
    (
        Filing::Arrange(7, 0, 61),
        Err(Refusal::ArrangedAboveObligation),
        [7, 50, 60, 199_999, 0, 0, 0, 0, 0, 0],
        [9, 40, 40, 0, 1, 0, 0, 0, 0, 0],
    ),
    (
        Filing::Arrange(7, 0, 60),
        Ok(()),
        [7, 50, 60, 199_999, 0, 0, 60, 0, 0, 0],
        [9, 40, 40, 0, 1, 0, 0, 0, 0, 0],
    ),
    (
        Filing::Arrange(7, 1, 199_940),
        Ok(()),
        [7, 50, 60, 199_999, 0, 0, 60, 199_940, 0, 0],
        [9, 40, 40, 0, 1, 0, 0, 0, 0, 0],
    ),
    (
        Filing::Arrange(9, 0, 1),
        Err(Refusal::QuantityAboveLimit),
        [7, 50, 60, 199_999, 0, 0, 60, 199_940, 0, 0],
        [9, 40, 40, 0, 1, 0, 0, 0, 0, 0],
    ),
    (
        Filing::Arrange(7, 1, 0),
        Ok(()),
        [7, 50, 60, 199_999, 0, 0, 60, 0, 0, 0],
        [9, 40, 40, 0, 1, 0, 0, 0, 0, 0],
    ),
];

const FAILURES: &[Filed] = &[
    (
        Filing::Fail(8, 2, u32::MAX),
        Err(Refusal::WrongQse),
        [7, 50, 60, 199_999, 0, 0, 60, 0, 0, 0],
        [9, 40, 40, 0, 1, 0, 0, 0, 0, 0],
    ),
    (
        Filing::Fail(9, 2, u32::MAX),
        Err(Refusal::NoSuchPlace),
        [7, 50, 60, 199_999, 0, 0, 60, 0, 0, 0],
        [9, 40, 40, 0, 1, 0, 0, 0, 0, 0],
    ),
    (
        Filing::Fail(9, 0, 150_000),
        Ok(()),
        [7, 50, 60, 199_999, 0, 0, 60, 0, 0, 0],
        [9, 40, 40, 0, 1, 0, 0, 0, 150_000, 0],
    ),
    (
        Filing::Fail(9, 1, 50_001),
        Err(Refusal::QuantityAboveLimit),
        [7, 50, 60, 199_999, 0, 0, 60, 0, 0, 0],
        [9, 40, 40, 0, 1, 0, 0, 0, 150_000, 0],
    ),
    (
        Filing::Fail(9, 1, 50_000),
        Ok(()),
        [7, 50, 60, 199_999, 0, 0, 60, 0, 0, 0],
        [9, 40, 40, 0, 1, 0, 0, 0, 150_000, 50_000],
    ),
    (
        Filing::Fail(7, 0, 1),
        Err(Refusal::QuantityAboveLimit),
        [7, 50, 60, 199_999, 0, 0, 60, 0, 0, 0],
        [9, 40, 40, 0, 1, 0, 0, 0, 150_000, 50_000],
    ),
    (
        Filing::Fail(9, 0, 20),
        Ok(()),
        [7, 50, 60, 199_999, 0, 0, 60, 0, 0, 0],
        [9, 40, 40, 0, 1, 0, 0, 0, 20, 50_000],
    ),
];

fn check_records(
    rt: &impl Abort,
    roster: &Roster,
    seven: [u32; 10],
    nine: [u32; 10],
) -> Result<(), Fail> {
    match roster.records() {
        [first, second] => {
            assert_eq!(rt; numbers(first), seven);
            assert_eq!(rt; numbers(second), nine);
            Ok(())
        }
        _ => {
            assert!(rt; false);
            Ok(())
        },
    }
}

fn file_all(
    rt: &impl Abort,
    board: &Board,
    roster: &mut Roster,
    table: &[Filed],
) -> Result<(), Fail> {
    for filed in table {
        let (filing, answer, seven, nine) = *filed;
        assert_eq!(rt; file(board, roster, filing), answer);
        check_records(rt, roster, seven, nine)?;
    }
    Ok(())
}

#[test]
fn a_filing_call_changes_one_number_of_the_qse_named(rt: HostRuntime) -> Result<(), Fail> {
    let board = cleared()?;
    let mut roster = enrolled()?;
    file_all(&rt, &board, &mut roster, ENROLMENTS)?;
    file_all(&rt, &board, &mut roster, LOADS)?;
    file_all(&rt, &board, &mut roster, AWARDS)?;
    file_all(&rt, &board, &mut roster, ARRANGEMENTS)?;
    file_all(&rt, &board, &mut roster, FAILURES)
}

// The loop counts, since the QSE's own number is what is filed.
#[test]
fn sixty_four_enrol_and_no_more(rt: HostRuntime) {
    let mut roster = Roster::new();
    for qse in 1..65 {
        assert_eq!(rt; roster.enrol(qse, 3_125, 3_125), Ok(()));
    }
    assert_eq!(rt; roster.enrol(64, 0, 0), Err(Refusal::WrongQse));
    assert_eq!(rt; roster.enrol(65, 0, 0), Err(Refusal::RosterFull));
    assert_eq!(rt; roster.enrol(65, u32::MAX, 0), Err(Refusal::RosterFull));
    assert_eq!(rt; roster.load(64, 3_126), Err(Refusal::QuantityAboveLimit));
    let totals = roster.totals();
    assert_eq!(rt; roster.records().len(), 64);
    assert_eq!(rt; totals.loads, 200_000);
    assert_eq!(rt; totals.obligations, 200_000);
}
