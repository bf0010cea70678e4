ghost use Rattle.std.specs.Prelude.{◌≡◌, ℕ, ◌<◌, ◌≤◌, map, length, pos, Some, None, MatchResult, unsigned_abs};
ghost use Rattle.roster.specs.Limits.{most_enrolled};
ghost use Rattle.sharing.specs.Shares.{nth};
ghost use Rattle.statement.specs.Amounts.{day_ahead_cost, default_rules, net_cost, refused, row_of, rules_of, statement};
ghost use Rattle.statement.specs.Laws.{most_amount, row_at};
ghost use Rattle.statement.specs.Views.{Keeps, Works};
ghost use Rattle.statement.specs.Working.{with_shares};
ghost use Rattle.std.specs.List.{range_with_len};

use crate::amounts::Row;
use crate::costs::Costs;
use crate::hour::Hour;
use crate::statement::Statement;
use defaults::DefaultRule;
use pricing::board::Board;
use refusals::Refusal;
use roster::limits::MOST_ENROLLED;
use roster::roster::Roster;
use sharing::SharingRule;

// Writes each QSE's day-ahead charge and adjustment into its row.
fn write_shared(charges: &[i64], shares: &[i64], rows: &mut [Row])
    requires charges { length charges.now ≡ length rows.old }
    requires shares { length shares.now ≡ length rows.old }
    requires charge { (k : ℕ) → k < length rows.old → unsigned_abs (nth charges.now k) ≤ most_amount }
    requires share { (k : ℕ) → k < length rows.old → unsigned_abs (nth shares.now k) ≤ most_amount }
    ensures { rows.new ≡ map (λ k. with_shares (row_at rows.old k) (nth charges.now k) (nth shares.now k)) (range_with_len 0 (length rows.old)) }
{
    // The parts are read by their place, since a zip over `iter_mut` tells a proof nothing of what is written.
    for (k, row) in rows.iter_mut().enumerate() {
        *row = row.with_shares(charges[k], shares[k]);
    }
}

impl Hour<'_> {
    // Writes each QSE's own row, and tells what they cost.
    fn write_own_costs<F: DefaultRule, I: DefaultRule>(&self, rows: &mut [Row]) -> Costs
        requires { length rows.old ≡ length self.now.records.now }
        ensures rows { rows.new ≡ map (λ r. row_of (default_rules F.charge I.charge) self.now.board.now r (pos 0) (pos 0)) self.now.records.now }
        ensures ahead { result.ahead ≡ day_ahead_cost self.now.board.now self.now.records.now }
        ensures net { result.net ≡ net_cost (default_rules F.charge I.charge) self.now.board.now self.now.records.now }
    {
        self.write_own::<F, I>(rows);
        Costs::of(rows)
    }

    // Works the rows out, or refuses.
    fn write_rows<S: SharingRule, F: DefaultRule, I: DefaultRule>(
        &self,
        rows: &mut [Row],
    ) -> Result<(), Refusal>
        requires { length rows.old ≡ length self.now.records.now }
        ensures { MatchResult result (λ _. (refused (rules_of S.shares F.charge I.charge) self.now.board.now self.now.records.now ≡ None) × (rows.new ≡ statement (rules_of S.shares F.charge I.charge) self.now.board.now self.now.records.now)) (λ refusal. refused (rules_of S.shares F.charge I.charge) self.now.board.now self.now.records.now ≡ Some refusal) }
    {
        let costs = self.write_own_costs::<F, I>(rows);
        self.quantities.check(costs)?;
        // Tables on the stack, as in shares.rt.
        let mut charges = [0; MOST_ENROLLED];
        let charges = &mut charges[..rows.len()];
        self.write_charges::<S>(costs.ahead, charges);
        let mut shares = [0; MOST_ENROLLED];
        let shares = &mut shares[..rows.len()];
        self.write_cost_shares::<S>(costs.net, shares);
        write_shared(charges, shares, rows);
        Ok(())
    }
}

impl Statement {
    // The six amounts of each enrolled QSE, under one sharing rule and a default rule each for failed and for infeasible quantities.
    pub fn work_out<S: SharingRule, F: DefaultRule, I: DefaultRule>(
        board: &Board,
        roster: &Roster,
    ) -> Result<Statement, Refusal>
        ensures answer { Works (rules_of S.shares F.charge I.charge) board.now roster.now result }
        ensures laws { Keeps (rules_of S.shares F.charge I.charge) board.now roster.now result }
    {
        let hour = Hour::of(board, roster)?;
        let count = hour.records.len();
        let mut rows = [Row::blank(); MOST_ENROLLED];
        hour.write_rows::<S, F, I>(&mut rows[..count])?;
        Ok(Statement { rows, count })
    }

    // A row for each enrolled QSE, in the order of enrolment.
    pub fn rows(&self) -> &[Row]
        ensures value { result.now ≡ self.now }
        ensures few { length result.now ≤ most_enrolled }
    {
        &self.rows[..self.count]
    }
}
