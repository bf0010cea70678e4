// Sums of signed numbers, and the lemmas on products and floors that the crates above share.
//
// `total_within` promises the sum of any numbers whose sizes stay within a limit, and none for all others.
#![tactic(auto)]

ghost use Rattle.integers.specs.Totals.{total_of, size_of};
ghost use Rattle.std.specs.Prelude.{◌≡◌, if◌then◌else◌, Some, None, nat_le};

// The sum of the numbers, none where their sizes without sign add up to more than `most`.
pub fn total_within(numbers: &[i64], most: u32) -> Option<i64>
    ensures { result ≡ (if nat_le (size_of numbers.now) most then Some (total_of numbers.now) else None) }
{
    let mut left = u64::from(most);
    let mut total = 0;
    // A loop with `?`, which `try_fold` over the pair of both numbers would not be plainer than.
    for number in numbers {
        left = left.checked_sub(number.unsigned_abs())?;
        total += number;
    }
    Some(total)
}
