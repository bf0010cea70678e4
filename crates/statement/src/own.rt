// What a QSE's own quantities come to: the first four amounts of its row.
ghost use Rattle.std.specs.Prelude.{◌≡◌, ◌-◌, ◌<◌, ◌≤◌, map, length, pos, neg_ℤ, sum_by, slice_index};
ghost use Rattle.defaults.specs.Charges.{Takes};
ghost use Rattle.pricing.specs.Cents.{cents_of};
ghost use Rattle.pricing.specs.Limits.{most_markets};
ghost use Rattle.statement.specs.Amounts.{default_rules, record_at, row_of};
ghost use Rattle.statement.specs.Working.{most_cost};
ghost use Rattle.std.specs.List.{range_with_len};

use crate::amounts::{Amounts, Row};
use crate::hour::Hour;
use defaults::DefaultRule;
use pricing::cents::cents;
use pricing::limits::MOST_MARKETS;

// The cents of the awards in the markets after market 0, each rounded alone.
fn later_cents(prices: &[u32], awards: &[u32; MOST_MARKETS]) -> u64
    requires few { length prices.now ≤ most_markets }
    ensures { result ≡ sum_by (λ market. cents_of (slice_index prices.now market) (slice_index awards.now market)) (range_with_len 1 (length prices.now - 1)) }
{
    // A pattern and a range, since `skip` tests at each market whether the first is passed.
    let [_, later_prices @ ..] = prices else {
        return 0;
    };
    later_prices
        .iter()
        .zip(&awards[1..])
        .map(|(price, award)| cents(*price, *award))
        .sum()
}

// Cents that a QSE is paid, as an amount.
fn paid(cents: u64) -> i64
    requires { cents ≤ most_cost }
    ensures { result ≡ neg_ℤ (pos cents) }
{
    // Proved to fit, here and below: `try_from` would bring an error that cannot come.
    -(cents as i64)
}

impl Hour<'_> {
    // What a default rule charges for a quantity that it takes, as an amount.
    fn charged<R: DefaultRule>(&self, tenths: u32) -> i64
        requires { Takes self.now.board.now tenths }
        ensures { result ≡ pos (R.charge self.now.board.now tenths) }
    {
        let cents = R::charged(self.board, tenths).unwrap();
        cents as i64
    }

    // A QSE's row with its own amounts, and without its parts of the costs.
    fn own_row<F: DefaultRule, I: DefaultRule>(&self, place: usize) -> Row
        requires { place < length self.now.records.now }
        ensures { result ≡ row_of (default_rules F.charge I.charge) self.now.board.now (record_at self.now.records.now place) (pos 0) (pos 0) }
    {
        let board = self.board;
        let record = &self.records[place];
        Row {
            qse: record.qse,
            amounts: Amounts {
                award: paid(cents(board.day_ahead_price(), record.awards[0])),
                supplemental: paid(later_cents(board.prices(), &record.awards)),
                failure: self.charged::<F>(record.failed),
                infeasible: self.charged::<I>(record.infeasible),
                charge: 0,
                adjustment: 0,
            },
        }
    }

    // Writes each QSE's own row.
    pub(crate) fn write_own<F: DefaultRule, I: DefaultRule>(&self, rows: &mut [Row])
        requires { length rows.old ≡ length self.now.records.now }
        ensures { rows.new ≡ map (λ r. row_of (default_rules F.charge I.charge) self.now.board.now r (pos 0) (pos 0)) self.now.records.now }
    {
        // By place, for the reason that shares.rt gives.
        for (place, row) in rows.iter_mut().enumerate() {
            *row = self.own_row::<F, I>(place);
        }
    }
}
