// What a statement is worked out from, and the facts of it that every step rests on.
ghost use Rattle.std.specs.Prelude.{◌≡◌, ◌≤◌, length, Ok, Err, MatchResult};
ghost use Rattle.pricing.specs.Boards as boards;
ghost use Rattle.refusals.specs.declared.Refusal.TheVariants.{DayAheadNotCleared};
ghost use Rattle.roster.specs.Records.{Kept};
ghost use Rattle.statement.specs.Working.{Right};

use crate::costs::Quantities;
use pricing::board::Board;
use refusals::Refusal;
use roster::records::Record;
use roster::roster::Roster;

// A board on which a market has cleared, the records of a roster, and their quantities.
#[derive(Clone, Copy)]
pub(crate) struct Hour<'a> {
    pub board: &'a Board,
    pub records: &'a [Record],
    pub quantities: Quantities,
    ghost cleared: { 1 ≤ length board.now.prices },
    ghost priced: { boards.Kept board.now },
    ghost kept: { Kept records.now },
    ghost right: { Right quantities records.now },
}

impl<'a> Hour<'a> {
    // Refused before a market has cleared.
    pub(crate) fn of(board: &'a Board, roster: &'a Roster) -> Result<Hour<'a>, Refusal>
        ensures { MatchResult result (λ hour. (hour.board.now ≡ board.now) × (hour.records.now ≡ roster.now)) (λ refusal. (length board.now.prices ≡ 0) × (refusal ≡ DayAheadNotCleared)) }
    {
        if board.prices().is_empty() {
            return Err(Refusal::DayAheadNotCleared);
        }
        Ok(Hour {
            board,
            records: roster.records(),
            quantities: Quantities::of(roster),
        })
    }
}
