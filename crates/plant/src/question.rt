// The four questions that can be put to a plant.
ghost use Rattle.std.specs.Prelude.{◌≡◌};
ghost use Rattle.plant.specs.Net.{Net, Bounded};

// How many tanks and how many valves a plant has.
#[derive(Clone, Copy, Debug, PartialEq, Eq)]
pub struct Counts {
    pub tanks: usize,
    pub valves: usize,
}

// A plant answers each question from its meaning, changes nothing by it and never refuses.
pub trait Plant {
    // what the plant is: its counts, its open valves and its weights
    ghost meaning: { Self → Net };

    // every plant keeps the limits
    ghost bounded: { (x : Self) → Bounded (meaning x) };

    fn counts(&self) -> Counts
        ensures tanks { result.tanks ≡ (meaning self.now).tanks }
        ensures valves { result.valves ≡ (meaning self.now).valves };

    // A valve beyond the counts is closed.
    fn is_open(&self, valve: usize) -> bool
        ensures { result ≡ (meaning self.now).opens valve };

    // What the valve takes from the tank for each unit fired; 0 beyond the counts.
    fn intake(&self, valve: usize, tank: usize) -> u16
        ensures { result ≡ (meaning self.now).intake valve tank };

    // What the valve gives to the tank for each unit fired; 0 beyond the counts.
    fn outlet(&self, valve: usize, tank: usize) -> u16
        ensures { result ≡ (meaning self.now).outlet valve tank };
}
