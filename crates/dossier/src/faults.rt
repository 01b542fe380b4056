// Why a dossier is refused. The upper fault carries the lower one whole.
ghost use Rattle.std.specs.Prelude.{◌≡◌};
ghost use Rattle.dossier.specs.Faults.{of_dossier, sized};
ghost use Rattle.dossier.specs.declared.faults.DossierFault.TheVariants.{Input as OfInput, Weighing as OfWeighing};

use crate::limits::MOST_INPUT_BYTES;
use weighing::faults::WeighingFault;
use words::{PaperFault, Refusal, WordFault};

// Where the fault was met: in the size of the whole, in one of the first three parts, or in the weighing.
#[derive(Clone, Copy, Debug, PartialEq, Eq)]
pub enum DossierFault {
    Input(WordFault),
    Plant(PaperFault),
    Source(PaperFault),
    Target(PaperFault),
    Weighing(WeighingFault),
}

// Both are written by hand: a derived From has no contract, so `?` would not say which fault it makes.
impl From<WordFault> for DossierFault {
    ghost from_gives = { λ x y. y ≡ OfInput x };

    fn from(value: WordFault) -> DossierFault {
        DossierFault::Input(value)
    }
}

impl From<WeighingFault> for DossierFault {
    ghost from_gives = { λ x y. y ≡ OfWeighing x };

    fn from(value: WeighingFault) -> DossierFault {
        DossierFault::Weighing(value)
    }
}

impl From<DossierFault> for Refusal {
    ghost from_gives = { λ x y. y ≡ of_dossier x };

    fn from(fault: DossierFault) -> Refusal {
        match fault {
            DossierFault::Input(fault) => Refusal::from(fault),
            DossierFault::Plant(fault) => Refusal::from(fault),
            DossierFault::Source(fault) => Refusal::from(fault),
            DossierFault::Target(fault) => Refusal::from(fault),
            DossierFault::Weighing(fault) => Refusal::from(fault),
        }
    }
}

// Whether the bytes are not too many, and are whole words. Too long a dossier is refused at the limit, however long it is.
pub fn check_size(input: &[u8]) -> Result<(), WordFault>
    ensures { result ≡ sized input.now }
{
    if input.len() > MOST_INPUT_BYTES {
        return Err(WordFault::Long(MOST_INPUT_BYTES / 4));
    }
    if input.len() % 4 != 0 {
        return Err(WordFault::Ragged(input.len() / 4));
    }
    Ok(())
}
