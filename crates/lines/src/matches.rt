// Whether a match is good: the numbers that a pair of lines, a valve and two factors give.
ghost use Rattle.std.specs.Prelude.{◌≡◌, ◌≤◌, pos, ◌-ℤ◌, ◌*ℤ◌, int_le, unsigned_abs};
ghost use Rattle.walks.specs.Rounds.{all_below};
ghost use Rattle.barriers.specs.Lines.{side};
ghost use Rattle.barriers.specs.Steps.{flow};
ghost use Rattle.barriers.specs.Tests.{tank_good?, marked?, good?};
ghost use Rattle.lines.specs.Limits.{most_valve_side};
ghost use Rattle.lines.specs.OfLine.{line_meant};
ghost use Rattle.lines.specs.OfValve.{valve_meant};
ghost use Rattle.lines.specs.OfWay.{way_meant};
ghost use Rattle.lines.specs.Tables.{weight_at};

use crate::line::{LineWeights, Weights};
use crate::valve::ValveWeights;

// Forward: a firing changes the second filling of a pair. Backward: it leads to the first.
#[derive(Clone, Copy, Debug, PartialEq)]
pub enum Way {
    Forward,
    Backward,
}

// What a match multiplies by: p goes with the line of the case left, q with the line of the case reached.
#[derive(Clone, Copy, Debug, PartialEq)]
pub struct Factors {
    pub p: u16,
    pub q: u16,
}

// From a line of the case left to a line of the case reached.
#[derive(Clone, Copy)]
pub struct Match<'a> {
    pub from: &'a LineWeights,
    pub to: &'a LineWeights,
    pub factors: Factors,
}

// a times x less b times y. Here and in the two below a and b are the factors of a match in either order, and so not one `Factors`.
fn difference(a: u16, x: i64, b: u16, y: i64) -> i64
    requires first { unsigned_abs x ≤ most_valve_side }
    requires second { unsigned_abs y ≤ most_valve_side }
    ensures { result ≡ pos a *ℤ x -ℤ pos b *ℤ y }
{
    i64::from(a) * x - i64::from(b) * y
}

// Whether a times a tank's weight on one side is at least b times its weight on another.
fn covers(a: u16, high: &Weights, b: u16, low: &Weights, tank: usize) -> bool
    ensures { result ≡ int_le (pos 0) (pos a *ℤ weight_at high.now.each tank -ℤ pos b *ℤ weight_at low.now.each tank) }
{
    difference(a, i64::from(high.at(tank)), b, i64::from(low.at(tank))) >= 0
}

// a times the side of what a valve gives, less b times the side of what it takes.
#[tactic(auto, using(std::proofs::lemmas::Int::ints))]
fn balance(valve: &ValveWeights, a: u16, gains: &Weights, b: u16, losses: &Weights) -> i64
    ensures { let N = valve_meant valve.now in result ≡ pos a *ℤ side (weight_at gains.now.each) (N.outlet 0) N.tanks -ℤ pos b *ℤ side (weight_at losses.now.each) (N.intake 0) N.tanks }
{
    let given = gains.side(&valve.outlet, valve.tanks);
    let taken = losses.side(&valve.intake, valve.tanks);
    difference(a, given, b, taken)
}

impl Match<'_> {
    // Whether both numbers of a tank are at least 0: with the factors, its left weight must not grow from line to line,
    // and its right weight must not fall.
    fn is_tank_good(&self, tank: usize) -> bool
        ensures { result ≡ tank_good? (line_meant self.now.from.now) (line_meant self.now.to.now) self.now.factors.p self.now.factors.q tank }
    {
        let Match { from, to, factors } = *self;
        let Factors { p, q } = factors;
        covers(p, &from.left, q, &to.left, tank) && covers(q, &to.right, p, &from.right, tank)
    }

    // The same of each of the first tanks.
    fn are_tanks_good(&self, tanks: usize) -> bool
        ensures { result ≡ all_below tanks (tank_good? (line_meant self.now.from.now) (line_meant self.now.to.now) self.now.factors.p self.now.factors.q) }
    {
        (0..tanks).all(|tank| self.is_tank_good(tank))
    }

    // The flow number of a valve, by the weights of the side that a firing changes.
    pub fn flow_number(&self, valve: &ValveWeights, way: Way) -> i64
        ensures { result ≡ flow (valve_meant valve.now) (way_meant way) 0 (line_meant self.now.from.now) (line_meant self.now.to.now) self.now.factors.p self.now.factors.q }
    {
        let Match { from, to, factors } = *self;
        let Factors { p, q } = factors;
        match way {
            Way::Forward => balance(valve, q, &to.right, p, &from.right),
            Way::Backward => balance(valve, p, &from.left, q, &to.left),
        }
    }

    // Whether one of three marks says that the line reached holds as sharply as it is written.
    fn is_marked(&self, flowing: i64) -> bool
        ensures { result ≡ marked? flowing (line_meant self.now.from.now) (line_meant self.now.to.now) self.now.factors.p self.now.factors.q }
    {
        let Match { from, to, factors } = self;
        flowing > 0 || from.strict && factors.p >= 1 || !to.strict && factors.q >= 1
    }

    // Whether a match is good: the numbers of the tanks and the flow number are at least 0, and a mark stands.
    pub fn is_good(&self, valve: &ValveWeights, way: Way) -> bool
        ensures { result ≡ good? (valve_meant valve.now) (way_meant way) 0 (line_meant self.now.from.now) (line_meant self.now.to.now) self.now.factors.p self.now.factors.q }
    {
        if !self.are_tanks_good(valve.tanks) {
            return false;
        }
        let flowing = self.flow_number(valve, way);
        flowing >= 0 && self.is_marked(flowing)
    }
}
