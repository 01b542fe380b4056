// A line's weights as numbers: its sides, whether it holds of a pair of fillings, and whether a match of two lines is good.
#![tactic(auto)]

pub mod amounts;
pub mod laws;
pub mod line;
pub mod matches;
pub mod valve;

pub use amounts::{Amounts, Pair, Table};
pub use line::{LineWeights, Weights};
pub use matches::{Factors, Match, Way};
pub use valve::ValveWeights;
