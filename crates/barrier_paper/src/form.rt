// The form of a barrier paper.
ghost use Rattle.std.specs.Prelude.{◌≡◌, ℕ};
ghost use Rattle.barrier_paper.specs.Form as spec;
ghost use Rattle.barrier_paper.specs.declared.form.Phase.{Phase as Phases};

use crate::limits::MOST_LINE_WEIGHT;
use crate::line_counts::LineCounts;
use paper::form::Form;
use plant::Counts;
use words::{Kind, PaperFault, Word};

// The matches that are still to come, each naming one of so many lines, and the least that the next step may be.
#[derive(Clone, Copy, Debug, PartialEq)]
pub struct Pending {
    pub matches: usize,
    pub lines: usize,
    pub least: u32,
}

// Where the reading stands. The number is the least that the next tank, or the next step's direction, case and valve, may be.
#[derive(Clone, Copy, Debug, PartialEq)]
pub enum Phase {
    Start,
    Case,
    Left(u32),
    Right(u32),
    Steps(u32),
    Matches(Pending),
}

impl Pending {
    // The phase while these are to come, or after them.
    fn phase(self) -> Phase
        ensures { result ≡ spec.waiting self }
    {
        if self.matches == 0 {
            Phase::Steps(self.least)
        } else {
            Phase::Matches(self)
        }
    }
}

// The plant's counts, the phase, and how many lines each case has so far.
#[derive(Clone, Copy, Debug)]
pub struct BarrierForm {
    pub counts: Counts,
    pub phase: Phase,
    pub lines: LineCounts,
}

impl BarrierForm {
    // Before the first word of a paper on a plant with these counts.
    pub fn start(counts: Counts) -> BarrierForm
        ensures { result ≡ spec.start counts.tanks counts.valves }
    {
        BarrierForm {
            counts,
            phase: Phase::Start,
            lines: LineCounts::new(),
        }
    }

    fn in_phase(self, phase: Phase) -> BarrierForm
        ensures { result ≡ spec.in_phase phase self }
    {
        BarrierForm { phase, ..self }
    }

    // One more case, which has no line yet.
    fn case(self, word: Word) -> Result<BarrierForm, PaperFault>
        ensures { result ≡ spec.case self word.place word.bits }
    {
        if word.field(0, 28) != 0 {
            return Err(PaperFault::Unnamed(word.place));
        }
        let lines = self.lines.with_case().ok_or(PaperFault::Count(word.place))?;
        Ok(BarrierForm {
            phase: Phase::Case,
            lines,
            ..self
        })
    }

    // One more line of the last case.
    fn line(self, word: Word) -> Result<BarrierForm, PaperFault>
        ensures { result ≡ spec.line self word.place word.bits }
    {
        if word.field(1, 27) != 0 {
            return Err(PaperFault::Unnamed(word.place));
        }
        let lines = self.lines.with_line().ok_or(PaperFault::Count(word.place))?;
        Ok(BarrierForm {
            phase: Phase::Left(0),
            lines,
            ..self
        })
    }

    // What refuses a weight word. `least` is the phase's, the word the reader's: two parameters, here and below.
    fn check_weight(&self, least: u32, word: Word) -> Result<(), PaperFault>
        ensures { result ≡ spec.weight_checked least self.now.counts.tanks word.place word.bits }
    {
        let tank = word.field(22, 6);
        let size = word.field(0, 14);
        if word.field(15, 7) != 0 {
            return Err(PaperFault::Unnamed(word.place));
        }
        if tank as usize >= self.counts.tanks || size < 1 || size > MOST_LINE_WEIGHT {
            return Err(PaperFault::Limit(word.place));
        }
        if tank < least {
            return Err(PaperFault::Order(word.place));
        }
        Ok(())
    }

    // A weight, left or right: `then` is the phase after it, with the least that the next tank may be.
    fn weight<F: FnOnce(u32) -> Phase>(
        self,
        then: F,
        least: u32,
        word: Word,
    ) -> Result<BarrierForm, PaperFault>
        requires { F.IsAlwaysCallable then }
        ensures { (phase : ℕ → Phases) → ((n : ℕ) (p : Phases) → F.post then n p → p ≡ phase n) → result ≡ spec.weight phase least self word.place word.bits }
    {
        self.check_weight(least, word)?;
        Ok(self.in_phase(then(word.field(22, 6) + 1)))
    }

    fn step(self, least: u32, word: Word) -> Result<BarrierForm, PaperFault>
        ensures { result ≡ spec.step least self word.place word.bits }
    {
        let from = word.field(23, 4) as usize;
        let valve = word.field(17, 6) as usize;
        let to = word.field(13, 4) as usize;
        let key = word.field(17, 11);
        let cases = self.lines.len();
        if word.field(0, 13) != 0 {
            return Err(PaperFault::Unnamed(word.place));
        }
        if from >= cases || valve >= self.counts.valves || to >= cases {
            return Err(PaperFault::Limit(word.place));
        }
        if key < least {
            return Err(PaperFault::Order(word.place));
        }
        let pending = Pending {
            matches: self.lines.get(to),
            lines: self.lines.get(from),
            least: key + 1,
        };
        Ok(self.in_phase(pending.phase()))
    }

    fn take_match(self, pending: Pending, word: Word) -> Result<BarrierForm, PaperFault>
        ensures { result ≡ spec.match pending self word.place word.bits }
    {
        if word.field(24, 4) as usize >= pending.lines {
            return Err(PaperFault::Limit(word.place));
        }
        let rest = Pending {
            matches: pending.matches.saturating_sub(1),
            ..pending
        };
        Ok(self.in_phase(rest.phase()))
    }

    // At the end of the paper, `at`, no match may be due.
    pub fn end(&self, at: usize) -> Result<(), PaperFault>
        ensures { result ≡ spec.ended self.now.phase at }
    {
        match self.phase {
            Phase::Matches(_) => Err(PaperFault::Due(at)),
            _ => Ok(()),
        }
    }
}

impl Form for BarrierForm {
    ghost stepped = { λ s at w. spec.barrier_step s at w };

    fn advance(self, word: Word) -> Result<BarrierForm, PaperFault> {
        let kind = word.kind().ok_or(PaperFault::Kind(word.place))?;
        match (self.phase, kind) {
            (Phase::Start | Phase::Case | Phase::Left(_) | Phase::Right(_), Kind::Case) =>
                self.case(word),
            (Phase::Case | Phase::Left(_) | Phase::Right(_), Kind::Line) => self.line(word),
            (Phase::Left(least), Kind::Left) => self.weight(Phase::Left, least, word),
            (Phase::Left(_), Kind::Right) => self.weight(Phase::Right, 0, word),
            (Phase::Right(least), Kind::Right) => self.weight(Phase::Right, least, word),
            (Phase::Case | Phase::Left(_) | Phase::Right(_), Kind::Step) => self.step(0, word),
            (Phase::Steps(least), Kind::Step) => self.step(least, word),
            (Phase::Matches(pending), Kind::Match) => self.take_match(pending, word),
            _ => Err(PaperFault::Kind(word.place)),
        }
    }
}
