// What is filed of one QSE, and what is added up over all of them.
ghost use Rattle.std.specs.Prelude.{◌≡◌, ◌+◌, ◌-◌, ◌≤◌};
ghost use Rattle.roster.specs.Filing.{newcomer, with_arranged, with_failed};
ghost use Rattle.roster.specs.Records.{above, one_above, arranged, awarded, defaulted};
ghost use Rattle.roster.specs.Sides.{number_of_kind, number_of_side};
ghost use Rattle.roster.specs.Working.{GivesUnless, PartOf, totals_with};

use crate::kind::Kind;
use crate::limits::MOST_ROSTER_TOTAL;
use crate::side::Side;
use pricing::limits::MOST_MARKETS;
use refusals::Refusal;

// Loads are in whole MWh, all other quantities in tenths of a MW.
#[derive(Clone, Copy)]
pub struct Record {
    pub qse: u16,
    pub load: u32,
    // what it owes day-ahead
    pub obligation: u32,
    // one for each market
    pub awards: [u32; MOST_MARKETS],
    pub arranged: Arranged,
    pub failed: u32,
    pub infeasible: u32,
}

// What a QSE arranged itself, day-ahead and later.
#[derive(Clone, Copy)]
pub struct Arranged {
    pub ahead: u32,
    pub later: u32,
}

// What is added up over the roster: each total has the same limit.
#[derive(Clone, Copy)]
pub struct Totals {
    pub loads: u32,
    pub obligations: u32,
    // in all markets together
    pub awards: u32,
    // on both sides together
    pub arranged: u32,
    // failed and infeasible together
    pub defaults: u32,
}

impl Record {
    // A QSE of which nothing is filed yet but its load and its obligation.
    pub(crate) fn newcomer(qse: u16, load: u32, obligation: u32) -> Record
        ensures { result ≡ newcomer qse load obligation }
    {
        Record {
            qse,
            load,
            obligation,
            awards: [0; MOST_MARKETS],
            arranged: Arranged { ahead: 0, later: 0 },
            failed: 0,
            infeasible: 0,
        }
    }

    // With another quantity arranged on one side.
    pub(crate) fn with_arranged(self, side: Side, tenths: u32) -> Record
        ensures { result ≡ with_arranged (number_of_side side) tenths self }
    {
        let arranged = match side {
            Side::DayAhead => Arranged {
                ahead: tenths,
                ..self.arranged
            },
            Side::Later => Arranged {
                later: tenths,
                ..self.arranged
            },
        };
        Record { arranged, ..self }
    }

    // With another failed or infeasible quantity.
    pub(crate) fn with_failed(self, kind: Kind, tenths: u32) -> Record
        ensures { result ≡ with_failed (number_of_kind kind) tenths self }
    {
        match kind {
            Kind::Failed => Record {
                failed: tenths,
                ..self
            },
            Kind::Infeasible => Record {
                infeasible: tenths,
                ..self
            },
        }
    }

    // What it is awarded in all markets together.
    fn awarded(&self) -> u64
        ensures { result ≡ awarded self.now }
    {
        self.awards.iter().map(|award| u64::from(*award)).sum()
    }

    // What it arranged on both sides together.
    fn arranged(&self) -> u64
        ensures { result ≡ arranged self.now }
    {
        u64::from(self.arranged.ahead) + u64::from(self.arranged.later)
    }

    // What it failed and what was infeasible together.
    fn defaulted(&self) -> u64
        ensures { result ≡ defaulted self.now }
    {
        u64::from(self.failed) + u64::from(self.infeasible)
    }
}

// A total with one number in the place of another.
fn replaced(total: u32, old: u64, new: u64) -> Result<u32, Refusal>
    requires { old ≤ total }
    ensures { GivesUnless (above (total - old + new)) (total - old + new) result }
{
    let sum = (u64::from(total) - old).saturating_add(new);
    if sum > MOST_ROSTER_TOTAL {
        return Err(Refusal::QuantityAboveLimit);
    }
    // Proved to fit: `try_from` would bring an error that cannot come.
    Ok(sum as u32)
}

impl Totals {
    // The totals of nobody.
    pub(crate) const NONE: Totals = Totals {
        loads: 0,
        obligations: 0,
        awards: 0,
        arranged: 0,
        defaults: 0,
    };

    // The totals with one record in the place of another, each tried against the limit.
    pub(crate) fn with(self, old: &Record, new: &Record) -> Result<Totals, Refusal>
        requires { PartOf self old.now }
        ensures { let totals = totals_with self old.now new.now in GivesUnless (one_above totals) totals result }
    {
        Ok(Totals {
            loads: replaced(self.loads, u64::from(old.load), u64::from(new.load))?,
            obligations: replaced(
                self.obligations,
                u64::from(old.obligation),
                u64::from(new.obligation),
            )?,
            awards: replaced(self.awards, old.awarded(), new.awarded())?,
            arranged: replaced(self.arranged, old.arranged(), new.arranged())?,
            defaults: replaced(self.defaults, old.defaulted(), new.defaulted())?,
        })
    }
}
