// One loop for the form of every paper.
ghost use Rattle.std.specs.Prelude.{◌≡◌, ℕ, Result as Res};
ghost use Rattle.words.specs.declared.faults.PaperFault.{PaperFault as Fault};
ghost use Rattle.paper.specs.Runs.{whole};

use words::{PaperFault, Reader, Word, faults};

// How far a paper of one form has been read.
pub trait Form: Sized + Drop {
    // what one more word, at its place, leads to
    ghost stepped: { Self → ℕ → ℕ → Res Self Fault };

    fn advance(self, word: Word) -> Result<Self, PaperFault>
        ensures { result ≡ stepped self word.place word.bits };
}

// Takes the words in turn and answers the state at the end, or the first fault.
pub fn check_form<F: Form>(start: F, bytes: &[u8], most: usize) -> Result<F, PaperFault>
    ensures { result ≡ whole F.Form.stepped start most bytes.now }
{
    faults::count_words(bytes, most)?;
    let mut state = start;
    for word in Reader::new(bytes) {
        state = state.advance(word)?;
    }
    Ok(state)
}
