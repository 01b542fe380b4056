// The weighing of totals: openness, balance, and the start from either end.
ghost use Rattle.std.specs.Prelude.{◌≡◌, ◌*◌, ◌^◌, ◌<◌, ◌≤◌, ◌==◌};
ghost use Rattle.plant.specs.Net.{turned};
ghost use Rattle.plant.specs.Firings.{given, named};
ghost use Rattle.paper.specs.Limits.{most_evidence_words};
ghost use Rattle.paper.specs.OfTotals.{totals_said};
ghost use Rattle.starting.specs.Starting.{marked};
ghost use Rattle.weighing.specs.Judgement.{closed_at, balance_side, unbalanced, judged};

use crate::faults::{TotalsFault, Verdict};
use crate::question::Question;
use paper::{Total, TotalsPaper};
use plant::limits::MOST_VALVES;
use plant::{Plant, Turned, ValveSet};
use starting::first_left_out;

// The valves that the paper totals.
fn totalled(paper: &TotalsPaper) -> ValveSet
    ensures { marked result ≡ named (totals_said paper.now).totals }
{
    let mut set = [false; MOST_VALVES];
    for word in paper.totals() {
        set[Total::from(word).valve] = true;
    }
    set
}

impl<P: Plant> Question<'_, P> {
    // The word of the first total whose valve is closed.
    fn first_closed(&self, paper: &TotalsPaper) -> Option<usize>
        ensures { result ≡ closed_at (P.Plant.meaning self.now.plant.now) 1 (totals_said paper.now).totals }
    {
        paper
            .totals()
            .find(|&word| !self.plant.is_open(Total::from(word).valve))
            .map(|word| word.place)
    }

    // What one total gives to a tank.
    fn given_by(&self, tank: usize, total: Total) -> u64
        requires { total.amount < 2 ^ 20 }
        ensures is { result ≡ total.amount * (P.Plant.meaning self.now.plant.now).outlet total.valve tank }
        ensures small { result ≤ 2 ^ 30 }
    {
        u64::from(total.amount) * u64::from(self.plant.outlet(total.valve, tank))
    }

    // What the totals give to a tank. Each tank is asked about on one paper, so that tank and paper stay two parameters.
    fn given_to(&self, tank: usize, paper: &TotalsPaper) -> u64
        ensures is { result ≡ given (P.Plant.meaning self.now.plant.now) (totals_said paper.now).totals tank }
        ensures small { result ≤ 2 ^ 30 * most_evidence_words }
    {
        let mut sum = 0;
        for word in paper.totals() {
            sum += self.given_by(tank, Total::from(word));
        }
        sum
    }

    // One side of a tank's balance: the divisor times the amount in the source, and what the totals give.
    fn side(&self, tank: usize, paper: &TotalsPaper) -> u64
        requires { tank < (P.Plant.meaning self.now.plant.now).tanks }
        ensures { result ≡ balance_side (P.Plant.meaning self.now.plant.now) self.now.source.now (totals_said paper.now) tank }
    {
        u64::from(paper.divisor()) * u64::from(self.source[tank]) + self.given_to(tank, paper)
    }

    // Whether a tank balances: what the plant takes is what the turned plant gives, asked back from the target.
    fn balances(&self, tank: usize, paper: &TotalsPaper) -> bool
        requires { tank < (P.Plant.meaning self.now.plant.now).tanks }
        ensures { result ≡ (balance_side (P.Plant.meaning self.now.plant.now) self.now.source.now (totals_said paper.now) tank == balance_side (turned (P.Plant.meaning self.now.plant.now)) self.now.target.now (totals_said paper.now) tank) }
    {
        let back = Question {
            plant: &Turned { below: self.plant },
            source: self.target,
            target: self.source,
        };
        self.side(tank, paper) == back.side(tank, paper)
    }

    // The first tank that does not balance.
    fn first_unbalanced(&self, paper: &TotalsPaper) -> Option<usize>
        ensures { result ≡ unbalanced (P.Plant.meaning self.now.plant.now) self.now.source.now self.now.target.now (totals_said paper.now) }
    {
        (0..self.plant.counts().tanks).find(|&tank| !self.balances(tank, paper))
    }

    // The four conditions in their order, each with its lowest place.
    pub(crate) fn weigh_totals(&self, paper: &TotalsPaper) -> Result<Verdict, TotalsFault>
        ensures { result ≡ judged (P.Plant.meaning self.now.plant.now) self.now.source.now self.now.target.now (totals_said paper.now) }
    {
        if let Some(word) = self.first_closed(paper) {
            return Err(TotalsFault::Closed(word));
        }
        if let Some(tank) = self.first_unbalanced(paper) {
            return Err(TotalsFault::Unbalanced(tank));
        }
        let set = totalled(paper);
        if let Some(valve) = first_left_out(self.plant, self.source, &set) {
            return Err(TotalsFault::NoStart(valve));
        }
        let turned = Turned { below: self.plant };
        if let Some(valve) = first_left_out(&turned, self.target, &set) {
            return Err(TotalsFault::NoEnd(valve));
        }
        Ok(Verdict::Joined)
    }
}
