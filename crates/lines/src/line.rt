// The weights of one line, tank by tank: its sides, and whether it holds.
ghost use Rattle.std.specs.Prelude.{◌≡◌, ℕ, ◌*◌, ◌≤◌, pos, unsigned_abs};
ghost use Rattle.plant.specs.Limits.{most_tanks};
ghost use Rattle.plant.specs.Walk.{Marking};
ghost use Rattle.barriers.specs.Lines.{side};
ghost use Rattle.lines.specs.Limits.{most_weight_sum};
ghost use Rattle.lines.specs.Tables.{Tabulates, weight_at};

use crate::amounts::{Pair, Table};
use plant::limits::MOST_TANKS;

// One side of a line. Each weight is a sum of the line's words for its tank, so it is small.
#[derive(Clone, Copy)]
pub struct Weights {
    pub each: [i32; MOST_TANKS],
    ghost small: { (r : ℕ) → unsigned_abs (weight_at each r) ≤ most_weight_sum },
}

// No tank has a weight. Written by hand: a struct with a ghost field derives none.
impl Default for Weights {
    ghost is_default = { λ x. (r : ℕ) → weight_at x.each r ≡ pos 0 };

    fn default() -> Self {
        Weights {
            each: [0; MOST_TANKS],
        }
    }
}

impl Weights {
    // The weight of a tank; one beyond the table has none.
    pub(crate) fn at(&self, tank: usize) -> i32
        ensures value { result ≡ weight_at self.now.each tank }
        ensures small { unsigned_abs result ≤ most_weight_sum }
    {
        self.each.get(tank).copied().unwrap_or(0)
    }

    // The sum of weight times amount over so many tanks; a tank beyond the tables adds nothing.
    pub(crate) fn side<const MOST: u32>(&self, amounts: &Table<MOST>, tanks: usize) -> i64
        ensures is { (m : Marking) → Tabulates amounts.now.each m → result ≡ side (weight_at self.now.each) m tanks }
        ensures small { unsigned_abs result ≤ most_tanks * (most_weight_sum * MOST) }
    {
        let tanks = tanks.min(MOST_TANKS);
        let mut sum = 0;
        for (weight, amount) in self.each[..tanks].iter().zip(&amounts.each[..tanks]) {
            sum += i64::from(*weight) * i64::from(*amount);
        }
        sum
    }
}

#[derive(Clone, Copy, Default)]
pub struct LineWeights {
    pub left: Weights,
    pub right: Weights,
    // a line is strict or it is not, and nothing goes with it
    pub strict: bool,
}

impl LineWeights {
    ghost use Rattle.barriers.specs.Tests.{holds_line?};
    ghost use Rattle.lines.specs.OfLine.{line_meant};

    // Whether the line holds of a pair of fillings.
    #[tactic(auto, using(std::proofs::lemmas::Int::ints))]
    pub fn holds(&self, pair: &Pair) -> bool
        ensures { (m m' : Marking) → Tabulates pair.now.source.now.each m → Tabulates pair.now.target.now.each m' → result ≡ holds_line? pair.now.tanks (line_meant self.now) m m' }
    {
        let left = self.left.side(pair.source, pair.tanks);
        let right = self.right.side(pair.target, pair.tanks);
        if self.strict {
            left < right
        } else {
            left <= right
        }
    }
}
