// A plant with the valves of a set closed as well.
ghost use Rattle.std.specs.Prelude.{false, slice_index_or};
ghost use Rattle.plant.specs.Net.{narrowed};
ghost use Rattle.plant.specs.Bounds.{narrowed_bounded};

use crate::limits::MOST_VALVES;
use crate::question::{Counts, Plant};

// A set of valves: the valves whose place holds true.
pub type ValveSet = [bool; MOST_VALVES];

#[derive(Clone, Copy, Debug, Drop)]
pub struct Narrowed<P> {
    pub below: P,
    pub shut: ValveSet,
}

impl<P: Plant> Plant for Narrowed<P> {
    ghost meaning = { λ x. narrowed (λ t. slice_index_or x.shut t false) (P.Plant.meaning x.below) };

    ghost bounded = { λ x. narrowed_bounded (λ t. slice_index_or x.shut t false) (P.Plant.bounded x.below) };

    fn counts(&self) -> Counts {
        self.below.counts()
    }

    fn is_open(&self, valve: usize) -> bool {
        !self.shut.get(valve).is_some_and(|&shut| shut) && self.below.is_open(valve)
    }

    // Two questions of the trait, alike but for the side they ask.
    fn intake(&self, valve: usize, tank: usize) -> u16 {
        self.below.intake(valve, tank)
    }

    fn outlet(&self, valve: usize, tank: usize) -> u16 {
        self.below.outlet(valve, tank)
    }
}
