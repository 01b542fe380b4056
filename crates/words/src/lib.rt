// Papers as words: four bytes to a word, what a word says, a reader that keeps its place, and why a paper is refused.
#![tactic(auto)]

pub mod exact;
pub mod faults;
pub mod kind;
pub mod reader;
pub mod word;

pub use faults::{PaperFault, Part, Refusal, WordFault};
pub use kind::{Kind, UnknownKind};
pub use reader::Reader;
pub use word::Word;
