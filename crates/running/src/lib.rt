// The running rule: each part is the step from one rounded running total to the next.
//
// `Running` promises the sharing rule's contract with the parts of `running` in specs/Running.antt, and the three laws of them.
#![tactic(auto)]

ghost use Rattle.std.specs.Prelude.{◌≡◌, ◌*◌, ◌≤◌, length, pos, ◌*ℤ◌, ◌≤ℤ◌, unsigned_abs};
ghost use Rattle.running.specs.Running.{rounded, running};
ghost use Rattle.sharing.specs.Shares.{most_sizes, most_total};
ghost use Rattle.running.specs.Laws.{running_fair};

use refusals::Refusal;
use sharing::{Division, SharingRule};

pub struct Running;

impl SharingRule for Running {
    ghost shares = { running };

    ghost fair = { running_fair };

    fn split(total: i64, weights: &[i64], parts: &mut [i64]) -> Result<(), Refusal> {
        let division = Division::new(total, weights, parts.len())?;
        write_parts(&division, parts);
        Ok(())
    }
}

// Writes each member's part: what it and all before it have together, less what all before it have.
fn write_parts(division: &Division, parts: &mut [i64])
    requires { length parts.old ≡ length division.now.weights.now }
    ensures { parts.new ≡ running division.now.total division.now.weights.now }
{
    let mut front = 0;
    let mut reached = 0;
    // A zip over `iter_mut` tells a proof how many parts it leaves and not which, so the weight is read by its place.
    for (k, part) in parts.iter_mut().enumerate() {
        front += division.weights[k];
        let next = first_parts(division, front);
        *part = next - reached;
        reached = next;
    }
}

// What the members in front have together, where their weights add up to `front`. Here and below each function says the bound of its own numbers: a type
// for numbers within a bound would be made and taken apart at each step.
fn first_parts(division: &Division, front: i64) -> i64
    requires { unsigned_abs front ≤ most_sizes }
    ensures { result ≡ rounded division.now.weight_sum (division.now.total *ℤ front) }
{
    round(division.total * front, division.weight_sum)
}

// n / divisor, rounded to the nearest, a half up.
fn round(n: i64, divisor: i64) -> i64
    requires number { unsigned_abs n ≤ most_total * most_sizes }
    requires positive { pos 1 ≤ℤ divisor }
    requires divisor { unsigned_abs divisor ≤ most_sizes }
    ensures { result ≡ rounded divisor n }
{
    (2 * n + divisor).div_euclid(2 * divisor)
}
