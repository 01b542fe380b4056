// Which valves of a set can be set going from a filling, one after another.
ghost use Rattle.std.specs.Prelude.{◌≡◌, ℕ, ◌<◌, ◌≤◌, true, false, ◌||◌, ◌==◌, nat_lt, MatchBool};
ghost use Rattle.plant.specs.Walk.{held};
ghost use Rattle.walks.specs.Rounds.{next, greatest};
ghost use Rattle.starting.specs.Starting.{marked, TellsGiven, Within, left_out};

use plant::limits::{MOST_TANKS, MOST_VALVES};
use plant::{Plant, ValveSet};

// A set of tanks: the tanks whose place holds true.
type TankSet = [bool; MOST_TANKS];

// The valves of a set that went so far, none outside the greatest starting part.
// The tanks that they give to are kept beside them, so that a valve is judged by its own weights alone.
#[derive(Drop)]
struct Going<'a, P: Plant> {
    plant: &'a P,
    filling: &'a [u32],
    set: &'a ValveSet,
    went: ValveSet,
    given: TankSet,
    ghost told: { TellsGiven (P.Plant.meaning plant.now) (marked went) (marked given) },
    ghost within: { Within (P.Plant.meaning plant.now) (held filling.now) (marked set.now) (marked went) },
}

impl<'a, P: Plant> Going<'a, P> {
    // No valve has gone yet.
    fn new(plant: &'a P, filling: &'a [u32], set: &'a ValveSet) -> Self
        ensures asked { (result.plant.now ≡ plant.now) × (result.filling.now ≡ filling.now) × (result.set.now ≡ set.now) }
    {
        Going {
            plant,
            filling,
            set,
            went: [false; MOST_VALVES],
            given: [false; MOST_TANKS],
        }
    }

    // Whether a valve is in the set, and takes only from tanks that hold something or are given to.
    // A tank that the filling does not list is empty. Three contracts say `next`, of three moments, so that it is no fact of the struct.
    fn can_go(&self, valve: usize) -> bool
        requires { valve < (P.Plant.meaning self.now.plant.now).valves }
        ensures { let N = P.Plant.meaning self.now.plant.now in result ≡ next N (held self.now.filling.now) (marked self.now.set.now) (marked self.now.went) valve }
    {
        self.set[valve]
            && (0..self.plant.counts().tanks).all(|tank| {
                self.plant.intake(valve, tank) == 0
                    || self.filling.get(tank).is_some_and(|&amount| amount > 0)
                    || self.given[tank]
            })
    }

    // The tanks that are given to once a valve goes. Only the plant's own tanks are asked about, by a `for`: a table made by `from_fn`
    // goes through all 64.
    fn given_with(&self, valve: usize) -> TankSet
        ensures { (r : ℕ) → marked result r ≡ (marked self.now.given r || nat_lt 0 ((P.Plant.meaning self.now.plant.now).outlet valve r)) }
    {
        let mut given = self.given;
        for tank in 0..self.plant.counts().tanks {
            given[tank] = given[tank] || self.plant.outlet(valve, tank) > 0;
        }
        given
    }

    // Lets a valve go that can.
    fn let_go(&mut self, valve: usize)
        requires inside { valve < (P.Plant.meaning self.old.plant.now).valves }
        requires can { let N = P.Plant.meaning self.old.plant.now in next N (held self.old.filling.now) (marked self.old.set.now) (marked self.old.went) valve ≡ true }
        ensures went { (t : ℕ) → marked self.new.went t ≡ (marked self.old.went t || t == valve) }
        ensures asked { (self.new.plant ≡ self.old.plant) × (self.new.filling ≡ self.old.filling) × (self.new.set ≡ self.old.set) }
    {
        self.given = self.given_with(valve);
        self.went[valve] = true;
    }

    // Lets go, in rising order, each valve that waits and can go: whether any went.
    // What a valve gives counts at once for the valves after it, which spares rounds.
    fn round(&mut self) -> bool
        ensures all { let N = P.Plant.meaning self.old.plant.now in (t : ℕ) → t < N.valves → next N (held self.old.filling.now) (marked self.old.set.now) (marked self.old.went) t ≡ true → marked self.new.went t ≡ true }
        ensures grew { MatchBool result ((t : ℕ) × (marked self.new.went t ≡ true) × (marked self.old.went t ≡ false)) ((t : ℕ) → marked self.new.went t ≡ marked self.old.went t) }
        ensures asked { (self.new.plant ≡ self.old.plant) × (self.new.filling ≡ self.old.filling) × (self.new.set ≡ self.old.set) }
    {
        let mut grew = false;
        // A `for` and a mark beside it, since each valve that goes changes the answer for those after it.
        for valve in 0..self.plant.counts().valves {
            if !self.went[valve] && self.can_go(valve) {
                self.let_go(valve);
                grew = true;
            }
        }
        grew
    }
}

// The greatest starting part of a set. A round in which none goes is the last;
// as many rounds as valves are enough.
pub fn greatest_start<P: Plant>(plant: &P, filling: &[u32], set: &ValveSet) -> ValveSet
    ensures part { (t : ℕ) → t < (P.Plant.meaning plant.now).valves → marked result t ≡ greatest (P.Plant.meaning plant.now) (held filling.now) (marked set.now) t }
    ensures beyond { (t : ℕ) → (P.Plant.meaning plant.now).valves ≤ t → marked result t ≡ false }
{
    let mut going = Going::new(plant, filling, set);
    for _ in 0..plant.counts().valves {
        if !going.round() {
            break;
        }
    }
    going.went
}

// The first valve of a set outside its greatest starting part.
pub fn first_left_out<P: Plant>(plant: &P, filling: &[u32], set: &ValveSet) -> Option<usize>
    ensures { result ≡ left_out (P.Plant.meaning plant.now) (held filling.now) (marked set.now) }
{
    let start = greatest_start(plant, filling, set);
    (0..plant.counts().valves).find(|&valve| set[valve] && !start[valve])
}

#[cfg(test)]
mod tests {
    use super::*;
    use plant::{Narrowed, RingMain, Turned};
    use std::array;

    fn set_of(valves: &[usize]) -> ValveSet {
        array::from_fn(|valve| valves.contains(&valve))
    }

    // Each valve is fed by the one before it; a valve that the ring does not have never goes.
    #[test]
    fn ring_starts_from_one_tank(rt: HostRuntime) {
        let set = set_of(&[0, 1, 3, 9]);
        let ring = RingMain::new(4);
        let start = greatest_start(&ring, &[5], &set);
        assert!(rt; start[0] && start[1] && !start[2] && !start[3] && !start[9]);
        assert_eq!(rt; first_left_out(&ring, &[5], &set), Some(3));
        assert_eq!(rt; first_left_out(&ring, &[5, 0, 0, 1], &set), None);
    }

    // Turned, each valve is fed by the one after it, so that the rounds go on.
    #[test]
    fn turned_ring_starts_from_its_last_valve(rt: HostRuntime) {
        let set = set_of(&[1, 2, 3]);
        let turned = Turned {
            below: RingMain::new(4),
        };
        let start = greatest_start(&turned, &[1], &set);
        assert!(rt; !start[0] && start[1] && start[2] && start[3]);
        assert_eq!(rt; first_left_out(&turned, &[0, 1], &set), Some(1));
    }

    // What starts is asked of weights alone: a closed valve starts as well.
    #[test]
    fn closed_valve_starts(rt: HostRuntime) {
        let shut = set_of(&[0]);
        let narrowed = Narrowed {
            below: RingMain::new(2),
            shut,
        };
        assert_eq!(rt; first_left_out(&narrowed, &[1], &shut), None);
        assert_eq!(rt; first_left_out(&narrowed, &[], &shut), Some(0));
    }
}
