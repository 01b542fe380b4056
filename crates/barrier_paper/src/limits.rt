// The limits of barrier papers; specs/Limits.antt has the same numbers.
pub const MOST_CASES: usize = 16;

// of one case
pub const MOST_LINES: usize = 16;

pub const MOST_LINE_WEIGHT: u32 = 10_000;
