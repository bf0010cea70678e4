ghost use Rattle.std.specs.Prelude.{◌≡◌, Some};
ghost use Rattle.pricing.specs.Boards.{both_prices};

// A filed interval's two prices, in cents per MW.
#[derive(Clone, Copy)]
pub struct Interval {
    pub online: u32,
    pub reliability: u32,
}

impl Interval {
    // The sum of its two prices.
    pub(crate) fn both_prices(self) -> u64
        ensures { result ≡ both_prices (Some self) }
    {
        u64::from(self.online) + u64::from(self.reliability)
    }
}
