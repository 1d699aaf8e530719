// The limits that more than one crate keeps. What keeps a limit alone names it where it does.

/// The most rows that a list may have.
pub const MOST_ROWS: usize = 1024;

/// The largest total of the sizes, and so the most ways that a throw may have.
pub const LARGEST_TOTAL: u32 = 10_240_000;

/// The most takes that stratification may have.
pub const MOST_TAKES: usize = 64;

/// The largest design weight that a unit may have, and the largest weight of an addition.
pub const LARGEST_WEIGHT: u32 = 1_000_000_000;
