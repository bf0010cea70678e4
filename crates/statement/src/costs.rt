// The two costs that a statement shares, and the quantities that decide whether it can.
ghost use Rattle.std.specs.Prelude.{◌≡◌, ℕ, ◌<◌, ◌≤◌, not, ◌&&◌, [], ◌∷◌, map, length, pos, neg_ℤ, ◌==◌, int_lt};
ghost use Rattle.integers.specs.Totals.{total_of};
ghost use Rattle.refusals.specs.declared.Refusal.TheVariants.{NoLoad, NothingBought, NothingOpenDayAhead};
ghost use Rattle.refusals.specs.Refused.{Gives, first_of};
ghost use Rattle.roster.specs.Limits.{most_enrolled};
ghost use Rattle.statement.specs.Amounts.{is_zero};
ghost use Rattle.statement.specs.Laws.{Small, own_sum, row_at};
ghost use Rattle.statement.specs.Working.{Right};

use crate::amounts::Row;
use refusals::Refusal;
use roster::roster::Roster;

#[derive(Clone, Copy)]
pub(crate) struct Costs {
    // the day-ahead cost
    pub ahead: i64,
    pub net: i64,
}

impl Costs {
    // What the rows' own amounts cost together.
    pub(crate) fn of(rows: &[Row]) -> Costs
        requires few { length rows.now ≤ most_enrolled }
        requires small { (k : ℕ) → k < length rows.now → Small (row_at rows.now k) }
        ensures ahead { result.ahead ≡ neg_ℤ (total_of (map (λ row. row.amounts.award) rows.now)) }
        ensures net { result.net ≡ neg_ℤ (total_of (map own_sum rows.now)) }
    {
        // A loop, since the library's sum of signed numbers asks for a bound that no clause of its own gives.
        let mut ahead: i64 = 0;
        let mut net: i64 = 0;
        for row in rows {
            ahead -= row.amounts.award;
            net -= row.own_sum();
        }
        Costs { ahead, net }
    }
}

#[derive(Clone, Copy)]
pub(crate) struct Quantities {
    // open day-ahead, all together
    pub ahead: u32,
    pub bought: i64,
    pub requirement: i64,
    pub loads: u32,
}

impl Quantities {
    pub(crate) fn of(roster: &Roster) -> Quantities
        ensures { Right result roster.now }
    {
        let totals = roster.totals();
        let records = roster.records();
        let arranged: u32 = records.iter().map(|record| record.arranged.ahead).sum();
        let failed: u32 = records.iter().map(|record| record.failed).sum();
        let bought = i64::from(totals.awards) - i64::from(failed);
        Quantities {
            ahead: totals.obligations - arranged,
            bought,
            requirement: i64::from(totals.arranged) + bought,
            loads: totals.loads,
        }
    }

    // Refuses costs that nobody can bear.
    pub(crate) fn check(&self, costs: Costs) -> Result<(), Refusal>
        ensures { Gives (first_of ((not (is_zero costs.ahead) && (self.now.ahead == 0), NothingOpenDayAhead) ∷ (not (is_zero costs.net) && int_lt self.now.bought (pos 1), NothingBought) ∷ (not (is_zero costs.net) && (self.now.loads == 0), NoLoad) ∷ [])) tt result }
    {
        if costs.ahead != 0 && self.ahead == 0 {
            return Err(Refusal::NothingOpenDayAhead);
        }
        if costs.net != 0 && self.bought < 1 {
            return Err(Refusal::NothingBought);
        }
        if costs.net != 0 && self.loads == 0 {
            return Err(Refusal::NoLoad);
        }
        Ok(())
    }
}
