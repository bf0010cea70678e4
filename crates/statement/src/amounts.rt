ghost use Rattle.std.specs.Prelude.{◌≡◌, ◌*◌, ◌≤◌, unsigned_abs};
ghost use Rattle.statement.specs.Laws.{Small, blank_row, most_amount, own_sum};
ghost use Rattle.statement.specs.Working.{with_shares};

// The six amounts of a QSE, in cents, negative where the QSE is paid.
#[derive(Clone, Copy)]
pub struct Amounts {
    // for its award in the day-ahead market
    pub award: i64,
    // for its awards in the later markets
    pub supplemental: i64,
    pub failure: i64,
    pub infeasible: i64,
    // its part of the day-ahead cost
    pub charge: i64,
    // its part of the net cost less the day-ahead charge
    pub adjustment: i64,
}

// One QSE's row of a statement.
#[derive(Clone, Copy)]
pub struct Row {
    pub qse: u16,
    pub amounts: Amounts,
}

impl Row {
    // Where no row stands.
    pub(crate) fn blank() -> Row
        ensures { result ≡ blank_row }
    {
        Row {
            qse: 0,
            amounts: Amounts {
                award: 0,
                supplemental: 0,
                failure: 0,
                infeasible: 0,
                charge: 0,
                adjustment: 0,
            },
        }
    }

    // Amounts 1 to 4 together.
    pub(crate) fn own_sum(&self) -> i64
        requires { Small self.now }
        ensures value { result ≡ own_sum self.now }
        ensures small { unsigned_abs result ≤ 4 * most_amount }
    {
        let amounts = self.amounts;
        amounts.award + amounts.supplemental + amounts.failure + amounts.infeasible
    }

    // With a day-ahead charge and an adjustment that come to a cost share together.
    pub(crate) fn with_shares(self, charge: i64, share: i64) -> Row
        requires charge { unsigned_abs charge ≤ most_amount }
        requires share { unsigned_abs share ≤ most_amount }
        ensures { result ≡ with_shares self charge share }
    {
        let mut row = self;
        row.amounts.charge = charge;
        row.amounts.adjustment = share - charge;
        row
    }
}
