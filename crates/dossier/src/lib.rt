// One call from the bytes of a dossier to the line that is printed.
#![tactic(auto)]

pub mod answer;
pub mod faults;
pub mod fillings;
pub mod judging;
pub mod laws;
pub mod limits;
pub mod parts;
#[cfg(test)]
mod tests;

pub use answer::line;
pub use faults::DossierFault;
pub use judging::judge;
