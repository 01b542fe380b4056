// What one valve of a plant takes from each tank and gives to it.
ghost use Rattle.std.specs.Prelude.{◌≤◌};
ghost use Rattle.plant.specs.Limits.{most_tanks};
ghost use Rattle.lines.specs.Tables.{Tabulates};

use crate::amounts::Table;
use plant::limits::{MOST_TANKS, MOST_WEIGHT};
use plant::{Plant, Turned};

#[derive(Clone, Copy)]
pub struct ValveWeights {
    pub tanks: usize,
    pub intake: Table<MOST_WEIGHT>,
    pub outlet: Table<MOST_WEIGHT>,
    ghost few_tanks: { tanks ≤ most_tanks },
}

// What a valve takes from each tank. A `for` by number, and no table made by `from_fn`: a tank beyond the plant's has no weight,
// and where a plant has few tanks most of the table is not gone through.
fn intake_table<P: Plant>(plant: &P, valve: usize) -> Table<MOST_WEIGHT>
    ensures { Tabulates result.each ((P.Plant.meaning plant.now).intake valve) }
{
    let mut each = [0; MOST_TANKS];
    for tank in 0..plant.counts().tanks {
        each[tank] = u32::from(plant.intake(valve, tank));
    }
    Table { each }
}

impl ValveWeights {
    ghost use Rattle.lines.specs.OfValve.{ReadFrom};

    pub fn of_plant<P: Plant>(plant: &P, valve: usize) -> ValveWeights
        ensures { ReadFrom result (P.Plant.meaning plant.now) valve }
    {
        ValveWeights {
            tanks: plant.counts().tanks,
            intake: intake_table(plant, valve),
            outlet: intake_table(&Turned { below: plant }, valve),
        }
    }
}
