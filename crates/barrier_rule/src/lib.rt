// The rule by which a barrier is judged: what is refused, in which order and at which place.
#![tactic(auto)]

pub mod faults;
pub mod laws;

pub use faults::BarrierFault;
