// What each tank holds in a filling.
ghost use Rattle.std.specs.Prelude.{ℕ, ◌<◌, ◌≤◌, min, slice_index};
ghost use Rattle.plant.specs.Limits.{most_amount, most_tanks};
ghost use Rattle.plant.specs.Walk.{held};
ghost use Rattle.lines.specs.Tables.{Tabulates};

use plant::limits::{MOST_AMOUNT, MOST_TANKS};
use std::array;

// A number for each tank that a plant can have. None is above MOST, nor MOST above the limit of fillings, so that sums of
// weight times number stay small.
#[derive(Clone, Copy)]
pub struct Table<const MOST: u32> {
    pub each: [u32; MOST_TANKS],
    ghost small: { (r : ℕ) → slice_index each r ≤ MOST },
    ghost most_small: { MOST ≤ most_amount },
}

// What each tank holds in a filling.
pub type Amounts = Table<MOST_AMOUNT>;

impl Amounts {
    // A tank that the filling does not list is empty. An amount above the limit counts as the limit,
    // so that a filling that keeps the limits is taken over as it is.
    pub fn of_filling(filling: &[u32]) -> Amounts
        ensures all { Tabulates result.each (λ r. min (held filling.now r) most_amount) }
        ensures exact { ((r : ℕ) → r < most_tanks → held filling.now r ≤ most_amount) → Tabulates result.each (held filling.now) }
    {
        Table {
            each: array::from_fn(|tank| filling.get(tank).copied().unwrap_or(0).min(MOST_AMOUNT)),
        }
    }
}

// Two fillings of a plant of so many tanks.
#[derive(Clone, Copy)]
pub struct Pair<'a> {
    pub source: &'a Amounts,
    pub target: &'a Amounts,
    pub tanks: usize,
}
