// Why a barrier paper is refused. The upper fault carries the lower one whole.
ghost use Rattle.std.specs.Prelude.{◌≡◌};
ghost use Rattle.barrier_weighing.specs.Faults.{of_barrier_paper};
ghost use Rattle.barrier_weighing.specs.declared.faults.BarrierPaperFault.TheVariants.{Paper as OfPaper, Barrier as OfBarrier};

use barrier_rule::BarrierFault;
use words::{PaperFault, Refusal};

// The form of the paper, or what its barrier says of the plant and the two fillings.
#[derive(Clone, Copy, Debug, PartialEq, Eq)]
pub enum BarrierPaperFault {
    Paper(PaperFault),
    Barrier(BarrierFault),
}

// Both are written by hand: a derived From has no contract, so `?` would not say which fault it makes.
impl From<PaperFault> for BarrierPaperFault {
    ghost from_gives = { λ x y. y ≡ OfPaper x };

    fn from(value: PaperFault) -> BarrierPaperFault {
        BarrierPaperFault::Paper(value)
    }
}

impl From<BarrierFault> for BarrierPaperFault {
    ghost from_gives = { λ x y. y ≡ OfBarrier x };

    fn from(value: BarrierFault) -> BarrierPaperFault {
        BarrierPaperFault::Barrier(value)
    }
}

impl From<BarrierPaperFault> for Refusal {
    ghost from_gives = { λ x y. y ≡ of_barrier_paper x };

    fn from(fault: BarrierPaperFault) -> Refusal {
        match fault {
            BarrierPaperFault::Paper(fault) => Refusal::from(fault),
            BarrierPaperFault::Barrier(fault) => Refusal::from(fault),
        }
    }
}
