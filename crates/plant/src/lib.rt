// Plants: tanks and valves, the four questions that can be put to one, and the plants that are made from others.
#![tactic(auto)]

pub mod lent;
pub mod limits;
pub mod narrowed;
pub mod question;
pub mod ring;
pub mod turned;

pub use narrowed::{Narrowed, ValveSet};
pub use question::{Counts, Plant};
pub use ring::RingMain;
pub use turned::Turned;
