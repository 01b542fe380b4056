// How many words a paper may have, and how large a divisor or a total may be.
pub const MOST_PLANT_WORDS: usize = 4096;

pub const MOST_EVIDENCE_WORDS: usize = 8192;

pub const MOST_DIVISOR: u32 = 1_000_000;

pub const MOST_TOTAL: u32 = 1_000_000;
