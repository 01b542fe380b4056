// The weighing of a barrier paper on any plant.
#![tactic(auto)]

mod cases;
pub mod faults;
mod judge;
pub mod weigh;

pub use faults::BarrierPaperFault;
pub use weigh::weigh_barrier;
