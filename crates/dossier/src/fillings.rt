// How a filling is read from its words.
ghost use Rattle.std.specs.Prelude.{◌≡◌, ◌<◌, OnOk};
ghost use Rattle.std.specs.Result.{result_map_both};
ghost use Rattle.plant.specs.Limits.{most_tanks};
ghost use Rattle.words.specs.Words.{words};
ghost use Rattle.dossier.specs.Fillings.{amount_read, fill_read};

use arrayvec::ArrayVec;
use plant::limits::MOST_TANKS;
use words::{PaperFault, Reader, Word};

// The amount of the tank whose turn it is.
fn read_amount(word: Word) -> Result<u32, PaperFault>
    ensures is { result ≡ amount_read word.place word.bits }
    ensures there { OnOk result (word.place < most_tanks) }
{
    if word.field(20, 2) != 0 {
        return Err(PaperFault::Unnamed(word.place));
    }
    if word.field(22, 6) as usize != word.place {
        return Err(PaperFault::Order(word.place));
    }
    Ok(word.field(0, 20))
}

// Reads the words of a part, of source or of target, tank by tank: words in turn can only name the tanks 0 to 63.
pub fn read_filling(part: &[u8]) -> Result<ArrayVec<u32, MOST_TANKS>, PaperFault>
    ensures { result_map_both (λ amounts. amounts.items) (λ fault. fault) result ≡ fill_read 0 (words part.now) }
{
    let mut amounts = ArrayVec::new();
    for word in Reader::new(part) {
        amounts.push(read_amount(word)?);
    }
    Ok(amounts)
}
