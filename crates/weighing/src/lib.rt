// The weighing of one evidence paper on any plant.
pub mod evidence;
pub mod faults;
pub mod laws;
pub mod question;
pub mod totals;
pub mod weigh;
