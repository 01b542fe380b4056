// What the words of steps and of their matches say.
use lines::Way;
use words::Word;

// A step from a case by a valve to a case, without its matches.
#[derive(Clone, Copy, Debug, PartialEq)]
pub struct StepWord {
    pub way: Way,
    pub from: usize,
    pub valve: usize,
    pub to: usize,
}

// A line of the case left and two factors.
#[derive(Clone, Copy, Debug, PartialEq)]
pub struct MatchWord {
    pub line: usize,
    pub p: u16,
    pub q: u16,
}

impl From<Word> for StepWord {
    ghost use Rattle.barrier_paper.specs.OfSteps.{SaysStep};

    ghost from_gives = { SaysStep };

    // What a step word says.
    fn from(word: Word) -> StepWord {
        // one bit, so no kind of its own that could be unknown
        let way = if word.field(27, 1) == 1 {
            Way::Backward
        } else {
            Way::Forward
        };
        StepWord {
            way,
            from: word.field(23, 4) as usize,
            valve: word.field(17, 6) as usize,
            to: word.field(13, 4) as usize,
        }
    }
}

impl From<Word> for MatchWord {
    ghost use Rattle.barrier_paper.specs.OfSteps.{SaysMatch};

    ghost from_gives = { SaysMatch };

    // What a match word says.
    fn from(word: Word) -> MatchWord {
        MatchWord {
            line: word.field(24, 4) as usize,
            p: word.field(12, 12) as u16,
            q: word.field(0, 12) as u16,
        }
    }
}
