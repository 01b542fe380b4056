// The limits of plants and of fillings; specs/Limits.antt has the same numbers.
pub const MOST_TANKS: usize = 64;

pub const MOST_VALVES: usize = 64;

// the largest intake or outlet weight
pub const MOST_WEIGHT: u32 = 1023;

pub const MOST_AMOUNT: u32 = 1_000_000;

pub const LEAST_RING: usize = 2;
