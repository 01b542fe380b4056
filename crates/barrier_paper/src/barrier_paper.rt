// How a barrier paper is read, and its parts.
ghost use Rattle.std.specs.Prelude.{◌≡◌, ◌*◌, ◌≤◌, length, IfOk};
ghost use Rattle.words.specs.Words.{words};
ghost use Rattle.paper.specs.Limits.{most_evidence_words};
ghost use Rattle.barrier_paper.specs.Document.{barrier_document, barrier_paper as paper_of};
ghost use Rattle.barrier_paper.specs.Form.{barrier_read};
ghost use Rattle.barrier_paper.specs.Windows as spec;

use crate::form::BarrierForm;
use crate::windows::{count_before, count_kind, part_of, seek};
use paper::form::check_form;
use paper::limits::MOST_EVIDENCE_WORDS;
use plant::Counts;
use words::{Kind, PaperFault};

// A barrier paper that has been read without fault, held for reading, and how many cases it has. It is the writing of what it says.
#[derive(Drop)]
pub struct BarrierPaper<'a> {
    pub(crate) bytes: &'a [u8],
    pub(crate) cases: usize,
    ghost some: { 4 ≤ length bytes.now },
    ghost few: { length bytes.now ≤ 4 * most_evidence_words },
    ghost counted: { cases ≡ length (barrier_document (words bytes.now)).cases },
    ghost written: { bytes.now ≡ paper_of (barrier_document (words bytes.now)) },
}

impl<'a> BarrierPaper<'a> {
    ghost use Rattle.barrier_paper.specs.OfBarrier.{barrier_answer};

    // Reads a paper on a plant with these counts; it is refused by its first fault.
    pub fn read(bytes: &'a [u8], counts: Counts) -> Result<BarrierPaper<'a>, PaperFault>
        ensures document { barrier_answer result ≡ barrier_read counts.tanks counts.valves bytes.now }
        ensures same { IfOk result (λ x. x.bytes.now ≡ bytes.now) }
    {
        let form = check_form(BarrierForm::start(counts), bytes, MOST_EVIDENCE_WORDS)?;
        form.end(bytes.len() / 4)?;
        let cases = count_kind(bytes, Kind::Case);
        Ok(BarrierPaper { bytes, cases })
    }

    // How many cases the paper has.
    pub fn cases(&self) -> usize
        ensures { result ≡ self.now.cases }
    {
        self.cases
    }

    // Case i; empty where there is none.
    pub fn case(&self, i: usize) -> &'a [u8]
        ensures { words result.now ≡ spec.case_part i (words self.now.bytes.now) }
    {
        part_of(seek(self.bytes, Kind::Case, i), Kind::Case)
    }

    // The steps with their matches, to the end of the paper.
    pub fn steps(&self) -> &'a [u8]
        ensures { words result.now ≡ spec.steps_part (words self.now.bytes.now) }
    {
        seek(self.bytes, Kind::Step, 0)
    }

    // The place of the first step, or of the paper's end where there is none.
    pub fn steps_at(&self) -> usize
        ensures { result ≡ length (spec.before_steps (words self.now.bytes.now)) }
    {
        count_before(self.bytes, Kind::Step.into())
    }
}
