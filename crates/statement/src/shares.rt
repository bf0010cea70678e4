// The parts of the two costs, by any sharing rule. They are worked out in tables as long as the longest roster, on the stack: the library uses no heap.
// Each function says that the table handed to it is as long as the records, and the bound of a number handed to it: a type for records with a table, or for
// a number within a bound, would be made for each call and taken apart in each function.
ghost use Rattle.std.specs.Prelude.{◌≡◌, ℕ, ◌+◌, ◌<◌, ◌≤◌, map, length, pos, ◌-ℤ◌, ◌≤ℤ◌, sum_by, ◌≢◌, unsigned_abs};
ghost use Rattle.integers.specs.Totals.{total_of};
ghost use Rattle.roster.specs.Records.{arranged};
ghost use Rattle.sharing.specs.Shares.{Takes, nth};
ghost use Rattle.statement.specs.Amounts.{open_quantities, parts_of, record_at};
ghost use Rattle.statement.specs.Quantities.{bought, load_of, open_day_ahead};
ghost use Rattle.std.specs.List.{range_with_len};
ghost use Rattle.statement.specs.Working.{most_cost};
ghost use Rattle.statement.specs.Laws.{most_amount};

use crate::hour::Hour;
use roster::limits::MOST_ENROLLED;
use roster::records::{Arranged, Record};
use sharing::SharingRule;

// The parts of a total, where the rule takes it.
fn share<S: SharingRule>(total: i64, weights: &[i64], parts: &mut [i64])
    requires { Takes total weights.now (length parts.old) }
    ensures { parts.new ≡ S.shares total weights.now }
{
    S::split(total, weights, parts).unwrap();
}

// The weights of the day-ahead charge. It has a loop of its own beside `write_loads`: a closure for the one line that differs would cost its callers a
// proof about every record, and say no more. In the loops here the records are read by their place, since a zip over `iter_mut` tells a proof nothing
// of what is written.
fn write_open_day_ahead(records: &[Record], weights: &mut [i64])
    requires { length weights.old ≡ length records.now }
    ensures { weights.new ≡ map open_day_ahead records.now }
{
    for (k, weight) in weights.iter_mut().enumerate() {
        *weight = i64::from(records[k].obligation) - i64::from(records[k].arranged.ahead);
    }
}

// The weights of the obligations.
fn write_loads(records: &[Record], weights: &mut [i64])
    requires { length weights.old ≡ length records.now }
    ensures { weights.new ≡ map load_of records.now }
{
    for (k, weight) in weights.iter_mut().enumerate() {
        *weight = i64::from(records[k].load);
    }
}

// An obligation less all that the QSE arranged.
fn open_quantity(obligation: i64, arranged: Arranged) -> i64
    requires { unsigned_abs obligation ≤ most_amount }
    ensures { result ≡ obligation -ℤ pos (arranged.ahead + arranged.later) }
{
    obligation - i64::from(arranged.ahead) - i64::from(arranged.later)
}

// Each QSE's open quantity, from its obligation.
fn write_open(records: &[Record], obligations: &[i64], weights: &mut [i64])
    requires room { length weights.old ≡ length records.now }
    requires long { length obligations.now ≡ length records.now }
    requires small { (k : ℕ) → k < length records.now → unsigned_abs (nth obligations.now k) ≤ most_amount }
    ensures { weights.new ≡ map (λ k. nth obligations.now k -ℤ pos (arranged (record_at records.now k))) (range_with_len 0 (length records.now)) }
{
    for (k, weight) in weights.iter_mut().enumerate() {
        *weight = open_quantity(obligations[k], records[k].arranged);
    }
}

impl Hour<'_> {
    // Each QSE's part of the day-ahead cost.
    pub(crate) fn write_charges<S: SharingRule>(&self, cost: i64, charges: &mut [i64])
        requires little { unsigned_abs cost ≤ most_cost }
        requires some { (cost ≢ pos 0) → total_of (map open_day_ahead self.now.records.now) ≢ pos 0 }
        requires room { length charges.old ≡ length self.now.records.now }
        ensures { charges.new ≡ parts_of S.shares cost (map open_day_ahead self.now.records.now) self.now.records.now }
    {
        if cost == 0 {
            charges.fill(0);
            return;
        }
        let mut weights = [0; MOST_ENROLLED];
        let weights = &mut weights[..charges.len()];
        write_open_day_ahead(self.records, weights);
        share::<S>(cost, weights, charges);
    }

    // Each QSE's open quantity, from its part of the requirement by load.
    fn write_open_quantities<S: SharingRule>(&self, weights: &mut [i64])
        requires loads { 1 ≤ sum_by (λ r. r.load) self.now.records.now }
        requires room { length weights.old ≡ length self.now.records.now }
        ensures { weights.new ≡ open_quantities S.shares self.now.records.now }
    {
        let mut obligations = [0; MOST_ENROLLED];
        let obligations = &mut obligations[..weights.len()];
        write_loads(self.records, weights);
        share::<S>(self.quantities.requirement, weights, obligations);
        write_open(self.records, obligations, weights);
    }

    // Each QSE's part of the net cost. It has the frame of `write_charges`: a function for both would take a closure that writes the weights, and say of it
    // all that each of the two says of its own.
    pub(crate) fn write_cost_shares<S: SharingRule>(&self, cost: i64, shares: &mut [i64])
        requires little { unsigned_abs cost ≤ most_cost }
        requires something { (cost ≢ pos 0) → pos 1 ≤ℤ bought self.now.records.now }
        requires loads { (cost ≢ pos 0) → 1 ≤ sum_by (λ r. r.load) self.now.records.now }
        requires room { length shares.old ≡ length self.now.records.now }
        ensures { shares.new ≡ parts_of S.shares cost (open_quantities S.shares self.now.records.now) self.now.records.now }
    {
        if cost == 0 {
            shares.fill(0);
            return;
        }
        let mut weights = [0; MOST_ENROLLED];
        let weights = &mut weights[..shares.len()];
        self.write_open_quantities::<S>(weights);
        share::<S>(cost, weights, shares);
    }
}
