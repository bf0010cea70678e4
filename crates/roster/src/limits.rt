// The limits that the roster keeps.

pub const MOST_ENROLLED: usize = 64;

// The most that each total over the roster may be.
pub const MOST_ROSTER_TOTAL: u64 = 200_000;

// Day-ahead and later.
pub const SIDES: usize = 2;

// Failed and infeasible.
pub const KINDS: usize = 2;
