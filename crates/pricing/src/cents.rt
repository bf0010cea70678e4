ghost use Rattle.std.specs.Prelude.{◌≡◌};
ghost use Rattle.pricing.specs.Cents.{cents_of, CentsLaws};

// The cents of a price in cents per MW and a quantity in tenths of a MW.
#[tactic(auto, using(crate::proofs::Rounding::cents_laws), unfolding(crate::specs::Cents::cents_of))]
pub fn cents(price: u32, tenths: u32) -> u64
    ensures value { result ≡ cents_of price tenths }
    ensures laws { CentsLaws cents_of }
{
    (u64::from(price) * u64::from(tenths) + 5) / 10
}
