// What a totals paper says: its divisor, and its totals by a reader that stands past the head.
ghost use Rattle.std.specs.Prelude.{◌≡◌, ◌*◌, ◌^◌, ◌<◌, ◌≤◌, map, length};
ghost use Rattle.plant.specs.Limits.{most_valves};
ghost use Rattle.words.specs.Left.{left};
ghost use Rattle.paper.specs.Limits.{most_evidence_words};
ghost use Rattle.paper.specs.Totals.{total_of};
ghost use Rattle.paper.specs.TotalsForm.{totals_read};

use crate::form::check_form;
use crate::limits::MOST_EVIDENCE_WORDS;
use crate::totals_form::TotalsForm;
use words::word::word_at;
use words::{PaperFault, Reader, Word};

// A valve and how much it is fired in all.
#[derive(Clone, Copy, Debug, PartialEq, Eq)]
pub struct Total {
    pub valve: usize,
    pub amount: u32,
}

impl From<Word> for Total {
    ghost use Rattle.paper.specs.OfTotals.{Says};

    ghost from_gives = { Says };

    // What a total word says.
    fn from(word: Word) -> Total {
        Total {
            valve: word.field(22, 6) as usize,
            amount: word.field(0, 20),
        }
    }
}

// A totals paper that has been read without fault, held for reading: it has a head, and few enough words.
#[derive(Drop)]
pub struct TotalsPaper<'a> {
    pub(crate) bytes: &'a [u8],
    ghost headed: { 4 ≤ length bytes.now },
    ghost few: { length bytes.now ≤ 4 * most_evidence_words },
}

impl<'a> TotalsPaper<'a> {
    ghost use Rattle.paper.specs.OfTotals.{totals_said, totals_answer};

    // Reads a paper on a plant with so many valves; it is refused by its first fault.
    pub fn read(bytes: &'a [u8], valves: usize) -> Result<TotalsPaper<'a>, PaperFault>
        ensures { totals_answer result ≡ totals_read valves bytes.now }
    {
        check_form(TotalsForm::Head { valves }, bytes, MOST_EVIDENCE_WORDS)?;
        Ok(TotalsPaper { bytes })
    }

    pub fn divisor(&self) -> u32
        ensures is { result ≡ (totals_said self.now).divisor }
        ensures small { result < 2 ^ 20 }
    {
        word_at(self.bytes, 0).map_or(0, |head| head.field(0, 20))
    }

    // A reader that stands at the first total, which is word 1.
    pub fn totals(&self) -> Reader<'a>
        ensures at { result.at ≡ 1 }
        ensures bytes { result.bytes.now ≡ self.now.bytes.now }
        ensures totals { map total_of (left result) ≡ (totals_said self.now).totals }
    {
        let mut reader = Reader::new(self.bytes);
        let _ = reader.take_word();
        reader
    }
}
