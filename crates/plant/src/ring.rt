// A ring main: each valve takes from its own tank and gives to the next one.
ghost use Rattle.std.specs.Prelude.{◌≡◌};
ghost use Rattle.plant.specs.Ring.{ring_main};
ghost use Rattle.plant.specs.Bounds.{ring_main_bounded};

use crate::limits::{LEAST_RING, MOST_TANKS};
use crate::question::{Counts, Plant};

#[derive(Clone, Copy, Debug)]
pub struct RingMain {
    tanks: usize,
}

impl RingMain {
    // A ring of so many tanks, 2 to 64; any other number makes the empty plant.
    pub fn new(tanks: usize) -> RingMain
        ensures { ring_main result.tanks ≡ ring_main tanks }
    {
        RingMain { tanks }
    }

    // How many tanks the ring has, and as many valves.
    fn size(&self) -> usize
        ensures { result ≡ (ring_main self.now.tanks).tanks }
    {
        if (LEAST_RING..=MOST_TANKS).contains(&self.tanks) {
            self.tanks
        } else {
            0
        }
    }
}

impl Plant for RingMain {
    ghost meaning = { λ x. ring_main x.tanks };

    ghost bounded = { λ x. ring_main_bounded x.tanks };

    fn counts(&self) -> Counts {
        Counts {
            tanks: self.size(),
            valves: self.size(),
        }
    }

    fn is_open(&self, valve: usize) -> bool {
        valve < self.size()
    }

    fn intake(&self, valve: usize, tank: usize) -> u16 {
        u16::from(valve < self.size() && tank == valve)
    }

    fn outlet(&self, valve: usize, tank: usize) -> u16 {
        let size = self.size();
        u16::from(valve < size && tank == (valve + 1) % size)
    }
}
