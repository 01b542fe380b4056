// The lines of a barrier paper as weights, each line's words read once, and whether they hold of a pair of fillings.
ghost use Rattle.std.specs.Prelude.{◌≡◌, ℕ};
ghost use Rattle.words.specs.Words.{words};
ghost use Rattle.plant.specs.Walk.{held};
ghost use Rattle.barriers.specs.Tests.{holds_case?, holds_barrier?};
ghost use Rattle.barrier_paper.specs.OfBarrier.{barrier_said};
ghost use Rattle.barrier_paper.specs.Document.{BarrierFormed, barrier_of};
ghost use Rattle.barrier_weighing.specs.OfCases.{case_meant, barrier_meant, case_said};

use arrayvec::ArrayVec;
use barrier_paper::BarrierPaper;
use barrier_paper::limits::{MOST_CASES, MOST_LINES};
use barrier_paper::weights::line_weights;
use barrier_paper::windows::{count_kind, line};
use lines::{LineWeights, Pair};
use words::Kind;

// The lines of one case.
pub type CaseLines = ArrayVec<LineWeights, MOST_LINES>;

// The cases of a paper.
pub type Cases = ArrayVec<CaseLines, MOST_CASES>;

// The lines that the words of a case say. A `for` with `push`: `collect` asks for memory, and `extend` can fail.
fn case_lines(case: &[u8]) -> CaseLines
    ensures { case_meant result ≡ case_said (words case.now) }
{
    let mut lines = CaseLines::new();
    for l in 0..count_kind(case, Kind::Line).min(MOST_LINES) {
        lines.push(line_weights(line(case, l)));
    }
    lines
}

// The cases of a paper that is well formed, read in the same way.
pub fn cases_of(paper: &BarrierPaper) -> Cases
    ensures { (tanks valves : ℕ) → BarrierFormed tanks valves (barrier_said paper.now) → barrier_meant result ≡ barrier_of (barrier_said paper.now) }
{
    let mut cases = Cases::new();
    for i in 0..paper.cases().min(MOST_CASES) {
        cases.push(case_lines(paper.case(i)));
    }
    cases
}

// Whether all the lines of a case hold.
fn holds_case(case: &CaseLines, pair: &Pair) -> bool
    ensures { result ≡ holds_case? pair.now.tanks (case_meant case.now) (held pair.now.source.now.each) (held pair.now.target.now.each) }
{
    case.iter().all(|line| line.holds(pair))
}

// Whether some case holds.
pub fn holds_some(cases: &Cases, pair: &Pair) -> bool
    ensures { result ≡ holds_barrier? pair.now.tanks (barrier_meant cases.now) (held pair.now.source.now.each) (held pair.now.target.now.each) }
{
    cases.iter().any(|case| holds_case(case, pair))
}
