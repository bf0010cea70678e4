// What a sharing rule is: it splits a signed total over signed weights into whole parts, so that no unit is lost.
//
// Every rule promises one list of parts for each total and weights in its range, and three laws of them: the parts add up to the total, each is less
// than one unit from its exact share, and a weight of 0 gets 0. It refuses just what is out of its range, and then leaves the caller's parts alone.
// `weight_sum` is the range check that the rules share, and a `Division` holds what has passed it.
#![tactic(auto)]

ghost use Rattle.integers.specs.Totals.{total_of};
ghost use Rattle.refusals.specs.declared.Refusal.TheVariants.{OutsideSharingRange};
ghost use Rattle.sharing.specs.Shares.{Checks, Fair, InRange, Splits, Takes, most_sizes};
ghost use Rattle.std.specs.Prelude.{◌≡◌, ◌↔◌, ◌≤◌, IfErr, IfOk, IsOk, List, ℤ, unsigned_abs};

use integers::total_within;
use refusals::Refusal;

// The most weights that a rule takes.
pub const MOST_MEMBERS: usize = 64;

// The largest total that a rule takes, either way.
pub const MOST_TOTAL: u64 = 30_000_000_000;

// The most that the sizes of the weights add up to.
pub const MOST_SIZES: u32 = 1_000_000;

pub trait SharingRule {
    // The parts of a total by weights.
    ghost shares: { ℤ → List ℤ → List ℤ };

    fn split(total: i64, weights: &[i64], parts: &mut [i64]) -> Result<(), Refusal>
        ensures { Splits shares total weights.now parts.old result parts.new };

    ghost fair: { (total : ℤ) (weights : List ℤ) → InRange total weights → Fair total weights (shares total weights) };
}

// The sum of the weights, where a rule takes the total, the weights and as many parts.
pub fn weight_sum(total: i64, weights: &[i64], part_count: usize) -> Result<i64, Refusal>
    ensures { Checks total weights.now part_count result }
{
    if !(1..=MOST_MEMBERS).contains(&weights.len())
        || weights.len() != part_count
        || total.unsigned_abs() > MOST_TOTAL
    {
        return Err(Refusal::OutsideSharingRange);
    }
    total_within(weights, MOST_SIZES)
        .filter(|&sum| sum >= 1)
        .ok_or(Refusal::OutsideSharingRange)
}

// A total and weights that every rule takes, and the weight sum.
#[derive(Clone, Copy)]
pub struct Division<'a> {
    pub total: i64,
    pub weights: &'a [i64],
    pub weight_sum: i64,
    ghost in_range: { InRange total weights.now },
    ghost adds_up: { weight_sum ≡ total_of weights.now },
    ghost small_sum: { unsigned_abs weight_sum ≤ most_sizes },
}

impl<'a> Division<'a> {
    // The division of the total by the weights, where a rule takes them and as many parts.
    pub fn new(total: i64, weights: &'a [i64], part_count: usize) -> Result<Self, Refusal>
        ensures ok { IsOk result ↔ Takes total weights.now part_count }
        ensures value { IfOk result (λ division. (division.total ≡ total) × (division.weights.now ≡ weights.now)) }
        ensures err { IfErr result (λ refusal. refusal ≡ OutsideSharingRange) }
    {
        let weight_sum = weight_sum(total, weights, part_count)?;
        Ok(Division {
            total,
            weights,
            weight_sum,
        })
    }
}
