// The form of barrier papers, and their cases, lines and steps as parts of the paper.
#![tactic(auto)]

pub mod barrier_paper;
pub mod exact;
pub mod form;
pub mod limits;
pub mod line_counts;
pub mod step_words;
pub mod weights;
pub mod windows;

pub use barrier_paper::BarrierPaper;
