// What comes of a line of the table.
ghost use Rattle.std.specs.Prelude.{◌≡◌, [], ◌∷◌, ◌++◌, IfOk, Decides};
ghost use Rattle.vectors.specs.Agreement.{agrees};
ghost use Rattle.vectors.specs.Outcomes.{is_agreement};

use crate::hex;
use crate::table::Row;
use std::alloc::{AllocError, Global};

// No row of three cells with digits in the second; the expected answer; or another one.
#[derive(Drop)]
pub enum Outcome<'a> {
    Unread,
    Agrees,
    Differs(Row<'a>, String),
}

// Whether an answer is the expected line, ended by a newline.
fn is_expected(answer: &str, expected: &str) -> bool
    ensures { Decides result (answer.now ≡ expected.now ++ 10 ∷ []) }
{
    answer.strip_suffix('\n') == Some(expected)
}

impl<'a> Outcome<'a> {
    // Judges the dossier of a line.
    pub fn of(heap: Global, line: &'a str) -> Result<Outcome<'a>, AllocError>
        ensures { IfOk result (λ outcome. is_agreement outcome ≡ agrees line.now) }
    {
        let Some(row) = Row::read(line) else {
            return Ok(Outcome::Unread);
        };
        let Some(input) = hex::decoded(heap, row.digits.as_bytes())? else {
            return Ok(Outcome::Unread);
        };
        let answer = dossier::line(heap, input.as_slice())?;
        if is_expected(answer.as_str(), row.expected) {
            Ok(Outcome::Agrees)
        } else {
            Ok(Outcome::Differs(row, answer))
        }
    }

    pub fn is_agreement(&self) -> bool
        ensures { result ≡ is_agreement self.now }
    {
        matches!(self, Outcome::Agrees)
    }
}
