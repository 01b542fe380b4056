// A barrier paper on a plant: the steps of its barrier, in the order of their places, and the whole.
ghost use Rattle.std.specs.Prelude.{◌≡◌, ◌^◌, ◌<◌, length};
ghost use Rattle.plant.specs.Walk.{held};
ghost use Rattle.words.specs.Words.{words};
ghost use Rattle.barriers.specs.Lines.{line_at};
ghost use Rattle.barriers.specs.Tests.{good?, holds_barrier?};
ghost use Rattle.lines.specs.OfLine.{line_meant};
ghost use Rattle.lines.specs.OfValve.{valve_meant};
ghost use Rattle.lines.specs.OfWay.{way_meant};
ghost use Rattle.barrier_paper.specs.Document.{StepFits, barrier_of, joined, case_words, match_said};
ghost use Rattle.barrier_paper.specs.OfBarrier.{barrier_said};
ghost use Rattle.barrier_rule.specs.Judgement as rule;
ghost use Rattle.barrier_weighing.specs.OfCases.{case_meant, barrier_meant, ReadOn};
ghost use Rattle.barrier_weighing.specs.OfMatches.{whole_step};

use crate::cases::{CaseLines, Cases, cases_of, holds_some};
use barrier_paper::BarrierPaper;
use barrier_paper::step_words::{MatchWord, StepWord};
use barrier_rule::BarrierFault;
use lines::{Amounts, Factors, LineWeights, Match, Pair, ValveWeights, Way};
use plant::Plant;
use words::word::word_at;
use words::{Reader, Word};

// How many places steps can have: 2 directions, 16 cases and 64 valves.
const MOST_PLACES: usize = 2048;

// Whether a match is good, from the line of a case that its word names to a line. One that names no line is not.
fn is_match_good(
    valve: &ValveWeights,
    way: Way,
    from: &CaseLines,
    word: Word,
    to: &LineWeights,
) -> bool
    ensures { (match_said word.bits).line < length (case_meant from.now) → result ≡ good? (valve_meant valve.now) (way_meant way) 0 (line_at (case_meant from.now) (match_said word.bits).line) (line_meant to.now) (match_said word.bits).p (match_said word.bits).q }
{
    let MatchWord { line, p, q } = MatchWord::from(word);
    let Some(from) = from.get(line) else {
        return false;
    };
    let factors = Factors { p, q };
    Match { from, to, factors }.is_good(valve, way)
}

// A paper that is well formed on a plant, and its cases.
#[derive(Drop)]
pub(crate) struct Judge<'a, P: Plant> {
    plant: &'a P,
    paper: &'a BarrierPaper<'a>,
    cases: Cases,
    ghost read: { ReadOn (P.Plant.meaning plant.now) paper.now },
    ghost meant: { barrier_meant cases ≡ barrier_of (barrier_said paper.now) },
}

impl<'a, P: Plant> Judge<'a, P> {
    pub(crate) fn new(plant: &'a P, paper: &'a BarrierPaper<'a>) -> Self
        requires { ReadOn (P.Plant.meaning plant.now) paper.now }
        ensures { (result.plant.now ≡ plant.now) × (result.paper.now ≡ paper.now) }
    {
        Judge {
            plant,
            paper,
            cases: cases_of(paper),
        }
    }

    // Whether a step has to stand at a place: its case is there and its valve is open.
    fn is_wanted(&self, place: usize) -> bool
        ensures { result ≡ rule.wanted (P.Plant.meaning self.now.plant.now) (length (barrier_of (barrier_said self.now.paper.now))) place }
    {
        place / 64 % 16 < self.cases.len() && self.plant.is_open(place % 64)
    }

    // The first such place from one place on, up to another.
    fn first_gap(&self, from: usize, to: usize) -> Option<usize>
        ensures { result ≡ rule.gap (P.Plant.meaning self.now.plant.now) (length (barrier_of (barrier_said self.now.paper.now))) from to }
    {
        (from..to).find(|&place| self.is_wanted(place))
    }

    // The first match of a step that is not good. Those of a closed valve's step are not weighed.
    fn first_bad(&self, word: Word, matches: &[u8]) -> Option<usize>
        requires { StepFits (P.Plant.meaning self.now.plant.now).valves (barrier_said self.now.paper.now).cases (whole_step word.bits (words matches.now)) }
        ensures { result ≡ rule.first_bad (P.Plant.meaning self.now.plant.now) (barrier_of (barrier_said self.now.paper.now)) (whole_step word.bits (words matches.now)) }
    {
        let step = StepWord::from(word);
        if !self.plant.is_open(step.valve) {
            return None;
        }
        let valve = ValveWeights::of_plant(self.plant, step.valve);
        let from = &self.cases[step.from];
        let mut matched = Reader::new(matches).zip(&self.cases[step.to]);
        matched.position(|(word, to)| !is_match_good(&valve, step.way, from, word, to))
    }

    // One step with its matches, where every place before `next` has been judged. The answer is the next place to judge.
    fn judge_step(&self, next: usize, word: Word, matches: &[u8]) -> Result<usize, BarrierFault>
        requires small { word.place < 2 ^ 62 }
        requires fits { StepFits (P.Plant.meaning self.now.plant.now).valves (barrier_said self.now.paper.now).cases (whole_step word.bits (words matches.now)) }
        ensures { result ≡ rule.step_judged (P.Plant.meaning self.now.plant.now) (barrier_of (barrier_said self.now.paper.now)) next word.place (whole_step word.bits (words matches.now)) }
    {
        let place = word.field(17, 11) as usize;
        if let Some(missing) = self.first_gap(next, place) {
            return Err(BarrierFault::Missing(missing));
        }
        if let Some(k) = self.first_bad(word, matches) {
            return Err(BarrierFault::BadMatch(word.place + (k + 1)));
        }
        Ok(place + 1)
    }

    // The steps, and the places after the last.
    fn judge_steps(&self) -> Result<(), BarrierFault>
        ensures { let d = barrier_said self.now.paper.now in result ≡ rule.steps_judged (P.Plant.meaning self.now.plant.now) (barrier_of d) 0 (length (joined case_words d.cases)) d.steps }
    {
        let mut next = 0;
        let mut place = self.paper.steps_at();
        let mut rest = self.paper.steps();
        // A step's matches are taken as one part, as many words as the case reached has lines. A reader would
        // take them word by word, and they are weighed against lines.
        while let Some(word) = word_at(rest, 0) {
            let due = self.cases[StepWord::from(word).to].len();
            let (matches, others) = rest[4..].split_at(4 * due);
            next = self.judge_step(next, Word { place, ..word }, matches)?;
            place += 1 + due;
            rest = others;
        }
        match self.first_gap(next, MOST_PLACES) {
            Some(place) => Err(BarrierFault::Missing(place)),
            None => Ok(()),
        }
    }

    // Whether the barrier holds of a pair of fillings: of three pairs of the two, so that they are two parameters.
    fn holds(&self, source: &Amounts, target: &Amounts) -> bool
        ensures { result ≡ holds_barrier? (P.Plant.meaning self.now.plant.now).tanks (barrier_of (barrier_said self.now.paper.now)) (held source.now.each) (held target.now.each) }
    {
        let tanks = self.plant.counts().tanks;
        let pair = Pair {
            source,
            target,
            tanks,
        };
        holds_some(&self.cases, &pair)
    }

    // What the barrier says of source and target, and then its steps.
    pub(crate) fn judge(&self, source: &Amounts, target: &Amounts) -> Result<(), BarrierFault>
        ensures { result ≡ rule.barrier_judged (P.Plant.meaning self.now.plant.now) (held source.now.each) (held target.now.each) (barrier_said self.now.paper.now) }
    {
        if !self.holds(source, source) {
            return Err(BarrierFault::FailsSource);
        }
        if !self.holds(target, target) {
            return Err(BarrierFault::FailsTarget);
        }
        if self.holds(source, target) {
            return Err(BarrierFault::HoldsAcross);
        }
        self.judge_steps()
    }
}
