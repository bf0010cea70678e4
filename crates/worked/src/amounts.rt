// The amounts that the examples are made of.
ghost use Rattle.sharing.specs.Shares.{Fair, InRange};
ghost use Rattle.std.specs.Prelude.{◌*◌, ◌^◌, ◌<◌, pos, IfOk, IsOkUnless};
ghost use Rattle.std.specs.Result.{OkIff};
ghost use Rattle.printing.specs.declared.Stop.TheVariants.{TooLarge};

use printing::Stop;
use sharing::SharingRule;

// What so many cents an hour come to over some hours.
pub fn over_hours(cents: u64, hours: u8) -> Result<i64, Stop>
    ensures amount { OkIff result (cents * hours < 2 ^ 63) (pos (cents * hours)) }
    ensures error { IsOkUnless result TooLarge }
{
    let amount = cents.checked_mul(u64::from(hours)).ok_or(Stop::TooLarge)?;
    Ok(i64::try_from(amount)?)
}

// Three parts of a total by a sharing rule.
pub fn three_parts<S: SharingRule>(total: i64, weights: [i64; 3]) -> Result<[i64; 3], Stop>
    ensures parts { OkIff result (InRange total weights) (S.shares total weights) }
    ensures fair { IfOk result (λ parts. Fair total weights parts) }
{
    let mut parts = [0; 3];
    S::split(total, &weights, &mut parts)?;
    Ok(parts)
}
