// Largest remainder: each part is first rounded down, and the missing units go one each to the largest remainders, the earlier member first among
// equals.
//
// `LargestRemainder` promises the sharing rule's contract with the parts of `largest_remainder` in specs/Largest.antt, and the three laws of them.
#![tactic(auto)]

ghost use Rattle.std.specs.Prelude.{◌≡◌, ℕ, ◌*◌, ◌<◌, ◌≤◌, length, pos, count_by, nat_le, slice_index, unsigned_abs};
ghost use Rattle.integers.specs.Totals.{size_of};
ghost use Rattle.largest_remainder.specs.Largest.{floor_of, remainder_of, floors, all_remainders, missing_units, ahead_of, unit_for, with_units, largest_remainder};
ghost use Rattle.sharing.specs.Shares.{most_members, most_sizes, most_total};
ghost use Rattle.largest_remainder.specs.Laws.{largest_fair};

use refusals::Refusal;
use sharing::{Division, MOST_MEMBERS, SharingRule};

pub struct LargestRemainder;

impl SharingRule for LargestRemainder {
    ghost shares = { largest_remainder };

    ghost fair = { largest_fair };

    fn split(total: i64, weights: &[i64], parts: &mut [i64]) -> Result<(), Refusal> {
        let division = Division::new(total, weights, parts.len())?;
        // A table on the stack: the library uses no heap.
        let mut remainders = [0; MOST_MEMBERS];
        write_parts(&division, parts, &mut remainders[..weights.len()]);
        Ok(())
    }
}

// Writes the parts; `remainders` is room to work in. That both are as long as the weights is said by each function that writes them: a type for weights
// with parts would be made anew for each, and as the parts are the caller's, its length would be asked for again.
// The bound of a number is said by each function below in the same way: a type for numbers within a bound would be made and taken apart at each step.
fn write_parts(division: &Division, parts: &mut [i64], remainders: &mut [u32])
    requires long { length parts.old ≡ length division.now.weights.now }
    requires beside { length remainders.old ≡ length division.now.weights.now }
    ensures { parts.new ≡ largest_remainder division.now.total division.now.weights.now }
{
    let missing = round_down(division, parts, remainders);
    let remainders = Remainders {
        all: remainders,
        missing,
    };
    remainders.hand_out(parts);
}

// Writes each part rounded down, and what that leaves of it, and answers the units that are missing of the total.
fn round_down(division: &Division, parts: &mut [i64], remainders: &mut [u32]) -> u64
    requires long { length parts.old ≡ length division.now.weights.now }
    requires beside { length remainders.old ≡ length division.now.weights.now }
    ensures floors { parts.new ≡ floors division.now.total division.now.weights.now }
    ensures remainders { remainders.new ≡ all_remainders division.now.total division.now.weights.now }
    ensures missing { result ≡ missing_units division.now.total division.now.weights.now }
{
    let mut missing = division.total;
    // A zip over `iter_mut` tells a proof how many parts it leaves and not which, so the other two go by their place.
    for (k, part) in parts.iter_mut().enumerate() {
        let (floor, remainder) = divide(division, division.weights[k]);
        *part = floor;
        remainders[k] = remainder;
        missing -= floor;
    }
    missing.unsigned_abs()
}

// Total times weight divided by the weight sum, rounded toward minus infinity, and what that leaves.
fn divide(division: &Division, weight: i64) -> (i64, u32)
    requires { unsigned_abs weight ≤ most_sizes }
    ensures floor { result.0 ≡ floor_of division.now.total division.now.weight_sum weight }
    ensures remainder { result.1 ≡ remainder_of division.now.total division.now.weight_sum weight }
{
    let product = division.total * weight;
    // The remainder is below the weight sum, so it fits.
    (
        product.div_euclid(division.weight_sum),
        product.rem_euclid(division.weight_sum) as u32,
    )
}

// What rounding down leaves: each member's remainder, and how many units are missing.
#[derive(Clone, Copy)]
struct Remainders<'a> {
    all: &'a [u32],
    missing: u64,
    ghost few: { length all.now ≤ most_members },
    ghost low: { (k : ℕ) → slice_index all.now k < most_sizes },
}

impl Remainders<'_> {
    // Hands the missing units out on top of the parts.
    fn hand_out(&self, parts: &mut [i64])
        requires long { length parts.old ≡ length self.now.all.now }
        requires small { size_of parts.old ≤ most_total * most_sizes }
        ensures { parts.new ≡ with_units self.now.missing self.now.all.now parts.old }
    {
        for (k, part) in parts.iter_mut().enumerate() {
            *part += self.unit(k);
        }
    }

    // One unit for the member at k where fewer members come before it than units are missing, else none.
    fn unit(&self, k: usize) -> i64
        requires { k < length self.now.all.now }
        ensures { result ≡ pos (unit_for self.now.missing self.now.all.now k) }
    {
        i64::from(u64::from(self.come_before(k)) < self.missing)
    }

    // How many members come before the member at k.
    fn come_before(&self, k: usize) -> u32
        requires { k < length self.now.all.now }
        ensures { result ≡ ahead_of self.now.all.now k }
    {
        let remainder = self.all[k];
        count_from(&self.all[..k], remainder) + count_from(&self.all[k + 1..], remainder + 1)
    }
}

// How many numbers are at least `least`.
fn count_from(numbers: &[u32], least: u32) -> u32
    requires { length numbers.now ≤ most_members }
    ensures { result ≡ count_by (nat_le least) numbers.now }
{
    // Not `filter(..).count()`, which took 8 times as long: it branches at each number, and this sum does not.
    numbers
        .iter()
        .map(|&number| u32::from(number >= least))
        .sum()
}
