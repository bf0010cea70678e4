ghost use Rattle.std.specs.Prelude.{◌≡◌, ◌<◌, [], IfErr, IfOk, length, slice_index_or};
ghost use Rattle.roster.specs.Filing.{Arranges, Awards, Enrols, Fails, Loads, blank};
ghost use Rattle.roster.specs.Working.{Files, Found, Tries};
ghost use Rattle.roster.specs.Records.{Kept, enrolments};

use crate::kind::Kind;
use crate::limits::MOST_ENROLLED;
use crate::records::{Record, Totals};
use crate::roster::Roster;
use crate::side::Side;
use pricing::board::Board;
use refusals::Refusal;

// The place of the QSE with this number.
fn place_of(records: &[Record], qse: u16) -> Result<usize, Refusal>
    ensures found { IfOk result
        (λ place. Found qse records.now place (slice_index_or records.now place blank)) }
    ensures missing { IfErr result
        (λ refusal. (enrolments qse records.now ≡ 0) × (refusal ≡ Refusal.WrongQse)) }
{
    records
        .iter()
        .position(|record| record.qse == qse)
        .ok_or(Refusal::WrongQse)
}

impl Roster {
    pub fn new() -> Roster
        ensures { result ≡ [] }
    {
        Roster {
            records: [Record::newcomer(0, 0, 0); MOST_ENROLLED],
            count: 0,
            totals: Totals::NONE,
        }
    }

    // Puts a record in the place of another, where the roster still keeps its limits. Always inlined: the record comes by value out of a change, and a call
    // would copy it once more.
    #[inline(always)]
    fn file(&mut self, place: usize, new: Record) -> Result<(), Refusal>
        requires place { place < length self.old }
        requires same_qse { new.qse ≡ (slice_index_or self.old place blank).qse }
        ensures { Files self.old place new result self.new }
    {
        let totals = self.totals.with(&self.records[place], &new)?;
        if new.arranged.ahead > new.obligation {
            return Err(Refusal::ArrangedAboveObligation);
        }
        self.records[place] = new;
        self.totals = totals;
        Ok(())
    }

    // The record of the QSE named becomes what the change makes of it, where the roster still keeps its limits.
    fn change<F: FnOnce(Record) -> Result<Record, Refusal>>(
        &mut self,
        qse: u16,
        change: F,
    ) -> Result<(), Refusal>
        requires callable { F.IsAlwaysCallable change }
        requires same_qse { (old new : Record) → F.post change old (Ok new) → new.qse ≡ old.qse }
        ensures tried { Tries (F.post change) qse self.old result self.new }
        ensures kept { Kept self.old }
    {
        let place = place_of(self.records(), qse)?;
        let new = change(self.records[place])?;
        self.file(place, new)
    }

    // A QSE comes after all others, with a load and an obligation.
    pub fn enrol(&mut self, qse: u16, load: u32, obligation: u32) -> Result<(), Refusal>
        ensures { Enrols self.old qse load obligation result self.new }
    {
        if qse == 0 || place_of(self.records(), qse).is_ok() {
            return Err(Refusal::WrongQse);
        }
        if self.count >= MOST_ENROLLED {
            return Err(Refusal::RosterFull);
        }
        let record = Record::newcomer(qse, load, obligation);
        let totals = self.totals.with(&Record::newcomer(0, 0, 0), &record)?;
        self.records[self.count] = record;
        self.count += 1;
        self.totals = totals;
        Ok(())
    }

    // A QSE's load is replaced.
    pub fn load(&mut self, qse: u16, load: u32) -> Result<(), Refusal>
        ensures { Loads self.old qse load result self.new }
    {
        self.change(qse, |old| Ok(Record { load, ..old }))
    }

    // A QSE's award in a cleared market is replaced.
    pub fn award(
        &mut self,
        board: &Board,
        qse: u16,
        market: usize,
        tenths: u32,
    ) -> Result<(), Refusal>
        ensures { Awards self.old (length board.now.prices) qse market tenths result self.new }
    {
        self.change(qse, |old| {
            if market >= board.cleared() {
                return Err(Refusal::NoSuchPlace);
            }
            let mut new = old;
            new.awards[market] = tenths;
            Ok(new)
        })
    }

    // A QSE's arranged quantity is replaced, day-ahead on side 0 and later on side 1. Any number may come in, so the call takes no `Side`: one that names
    // none is refused, and after the QSE.
    pub fn arrange(&mut self, qse: u16, side: usize, tenths: u32) -> Result<(), Refusal>
        ensures { Arranges self.old qse side tenths result self.new }
    {
        self.change(
            qse,
            |old| Ok(old.with_arranged(Side::try_from(side)?, tenths)),
        )
    }

    // A QSE's failed quantity is replaced by kind 0, and its infeasible quantity by kind 1. Any number may come in here too.
    pub fn fail(&mut self, qse: u16, kind: usize, tenths: u32) -> Result<(), Refusal>
        ensures { Fails self.old qse kind tenths result self.new }
    {
        self.change(
            qse,
            |old| Ok(old.with_failed(Kind::try_from(kind)?, tenths)),
        )
    }
}
