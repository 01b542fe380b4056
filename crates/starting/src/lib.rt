// The greatest starting part of a set of valves, computed.
#![tactic(auto)]

pub mod laws;
pub mod rounds;

pub use rounds::{first_left_out, greatest_start};
