// Why a paper is refused. The upper fault carries the lower one whole.
ghost use Rattle.std.specs.Prelude.{◌≡◌, Some};
ghost use Rattle.words.specs.Faults.{of_words, of_paper, counted};
ghost use Rattle.words.specs.Shown.{part_name, refusal_text};
ghost use Rattle.words.specs.declared.faults.PaperFault.TheVariants.{Words};

use std::fmt;

// The part of the program in which a refusal comes.
#[derive(Clone, Copy, Debug, PartialEq, Eq)]
pub enum Part {
    Question,
    Words,
    Paper,
    Weighing,
}

impl fmt::Display for Part {
    ghost output = { λ part. Some (part_name part) };

    fn fmt<W: fmt::Write>(&self, f: &mut fmt::Formatter<W>) -> fmt::Result {
        f.write_str(match self {
            Part::Question => "QUESTION",
            Part::Words => "WORDS",
            Part::Paper => "PAPER",
            Part::Weighing => "WEIGHING",
        })
    }
}

// What a refusal names: its number, its place, and the part of the program. The number is what the format prints; the faults themselves
// are enums.
#[derive(Clone, Copy, Debug, PartialEq, Eq)]
pub struct Refusal {
    pub number: u32,
    pub place: usize,
    pub part: Part,
}

impl fmt::Display for Refusal {
    ghost output = { λ refusal. Some (refusal_text refusal) };

    fn fmt<W: fmt::Write>(&self, f: &mut fmt::Formatter<W>) -> fmt::Result {
        let Refusal {
            number,
            place,
            part,
        } = *self;
        write!(f, "REFUSED {number} AT {place} IN {part}")
    }
}

// A run of bytes that is no run of words: broken in a word, empty, or too long. Each but the empty one has its count of whole words.
#[derive(Clone, Copy, Debug, PartialEq, Eq)]
pub enum WordFault {
    Ragged(usize),
    Empty,
    Long(usize),
}

// A word that cannot stand where it does, by its place: its kind cannot come, a bit that no field names is one,
// a field is beyond its limit, it does not rise, or it is one case or line too many. Or, at the end of the paper, matches are still due.
#[derive(Clone, Copy, Debug, PartialEq, Eq)]
pub enum PaperFault {
    Words(WordFault),
    Kind(usize),
    Due(usize),
    Unnamed(usize),
    Limit(usize),
    Order(usize),
    Count(usize),
}

// Written by hand: a derived From has no contract, so `?` would not say which fault it makes.
impl From<WordFault> for PaperFault {
    ghost from_gives = { λ x y. y ≡ Words x };

    fn from(value: WordFault) -> PaperFault {
        PaperFault::Words(value)
    }
}

impl From<WordFault> for Refusal {
    ghost from_gives = { λ x y. y ≡ of_words x };

    fn from(fault: WordFault) -> Refusal {
        let (number, place) = match fault {
            WordFault::Ragged(words) => (1, words),
            WordFault::Empty => (2, 0),
            WordFault::Long(words) => (3, words),
        };
        Refusal {
            number,
            place,
            part: Part::Words,
        }
    }
}

impl From<PaperFault> for Refusal {
    ghost from_gives = { λ x y. y ≡ of_paper x };

    fn from(fault: PaperFault) -> Refusal {
        let (number, place) = match fault {
            PaperFault::Words(fault) => return Refusal::from(fault),
            PaperFault::Kind(word) => (4, word),
            PaperFault::Due(words) => (5, words),
            PaperFault::Unnamed(word) => (6, word),
            PaperFault::Limit(word) => (7, word),
            PaperFault::Order(word) => (8, word),
            PaperFault::Count(word) => (9, word),
        };
        Refusal {
            number,
            place,
            part: Part::Paper,
        }
    }
}

// How many words the bytes are, at most `most`.
pub fn count_words(bytes: &[u8], most: usize) -> Result<usize, WordFault>
    ensures { result ≡ counted most bytes.now }
{
    let words = bytes.len() / 4;
    if bytes.len() % 4 != 0 {
        return Err(WordFault::Ragged(words));
    }
    if bytes.is_empty() {
        return Err(WordFault::Empty);
    }
    if words > most {
        return Err(WordFault::Long(words));
    }
    Ok(words)
}
