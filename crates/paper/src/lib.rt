// The forms of papers, and the plant that a plant paper is.
#![tactic(auto)]

pub mod exact;
pub mod form;
pub mod limits;
pub mod paper_plant;
pub mod plant_form;
pub mod totals;
pub mod totals_form;

pub use paper_plant::{PaperPlant, check_plant};
pub use totals::{Total, TotalsPaper};
