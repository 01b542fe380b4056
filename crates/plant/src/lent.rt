// A plant behind a shared reference is that plant.
use crate::question::{Counts, Plant};

impl<P: Plant> Plant for &P {
    ghost meaning = { λ x. P.Plant.meaning x.now };

    ghost bounded = { λ x. P.Plant.bounded x.now };

    fn counts(&self) -> Counts {
        (**self).counts()
    }

    fn is_open(&self, valve: usize) -> bool {
        (**self).is_open(valve)
    }

    // Two questions of the trait, alike but for their name.
    fn intake(&self, valve: usize, tank: usize) -> u16 {
        (**self).intake(valve, tank)
    }

    fn outlet(&self, valve: usize, tank: usize) -> u16 {
        (**self).outlet(valve, tank)
    }
}
