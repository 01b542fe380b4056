// A plant with intake and outlet exchanged.
ghost use Rattle.plant.specs.Net.{turned};
ghost use Rattle.plant.specs.Bounds.{turned_bounded};

use crate::question::{Counts, Plant};

#[derive(Clone, Copy, Debug, Drop)]
pub struct Turned<P> {
    pub below: P,
}

impl<P: Plant> Plant for Turned<P> {
    ghost meaning = { λ x. turned (P.Plant.meaning x.below) };

    ghost bounded = { λ x. turned_bounded (P.Plant.bounded x.below) };

    fn counts(&self) -> Counts {
        self.below.counts()
    }

    fn is_open(&self, valve: usize) -> bool {
        self.below.is_open(valve)
    }

    // Two questions of the trait, alike but for the side they ask.
    fn intake(&self, valve: usize, tank: usize) -> u16 {
        self.below.outlet(valve, tank)
    }

    fn outlet(&self, valve: usize, tank: usize) -> u16 {
        self.below.intake(valve, tank)
    }
}
