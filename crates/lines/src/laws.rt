// What the weights of a valve say of a plant.
ghost use Rattle.lines.specs.OfValve.{ValvesAreTheirWeights};

// A match is the same by a valve of a plant as by the weights that are read from it.
pub fn valves_are_their_weights() -> bool
    ensures { ValvesAreTheirWeights }
{
    true
}
