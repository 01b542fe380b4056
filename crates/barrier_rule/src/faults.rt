// Why a barrier is refused.
ghost use Rattle.std.specs.Prelude.{◌≡◌};
ghost use Rattle.barrier_rule.specs.Faults.{of_barrier};

use words::{Part, Refusal};

// A barrier that shows nothing: it does not hold of (source, source) or of (target, target), or it holds of (source, target);
// a step is missing, by its direction, case and valve in one number; or a match is not good, by its word.
#[derive(Clone, Copy, Debug, PartialEq, Eq)]
pub enum BarrierFault {
    FailsSource,
    FailsTarget,
    HoldsAcross,
    Missing(usize),
    BadMatch(usize),
}

impl From<BarrierFault> for Refusal {
    ghost from_gives = { λ x y. y ≡ of_barrier x };

    fn from(fault: BarrierFault) -> Refusal {
        let (number, place) = match fault {
            BarrierFault::FailsSource => (16, 0),
            BarrierFault::FailsTarget => (17, 0),
            BarrierFault::HoldsAcross => (18, 0),
            BarrierFault::Missing(place) => (19, place),
            BarrierFault::BadMatch(word) => (20, word),
        };
        Refusal {
            number,
            place,
            part: Part::Weighing,
        }
    }
}
