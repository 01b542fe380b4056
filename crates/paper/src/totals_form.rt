// The form of a totals paper.
ghost use Rattle.std.specs.Prelude.{◌≡◌};
ghost use Rattle.words.specs.Words.{kind};
ghost use Rattle.paper.specs.TotalsForm.{totals_step};
ghost use Rattle.paper.specs.declared.totals_form.TotalsForm.TheVariants.{Head as AtHead, Totals as AtTotals};

use crate::form::Form;
use crate::limits::{MOST_DIVISOR, MOST_TOTAL};
use words::{Kind, PaperFault, Word};

// Before the head, or after it: then the next total's valve is at least `least`. The plant has `valves` valves.
#[derive(Clone, Copy, Debug, PartialEq, Eq)]
pub enum TotalsForm {
    Head { valves: usize },
    Totals { valves: usize, least: u32 },
}

// The head gives the divisor.
fn take_head(valves: usize, word: Word) -> Result<TotalsForm, PaperFault>
    requires { kind word.bits ≡ 4 }
    ensures { result ≡ totals_step (AtHead valves) word.place word.bits }
{
    let divisor = word.field(0, 20);
    if word.field(20, 8) != 0 {
        return Err(PaperFault::Unnamed(word.place));
    }
    if !(1..=MOST_DIVISOR).contains(&divisor) {
        return Err(PaperFault::Limit(word.place));
    }
    Ok(TotalsForm::Totals { valves, least: 0 })
}

// A total is one of the plant's valves, and rises.
fn take_total(valves: usize, least: u32, word: Word) -> Result<TotalsForm, PaperFault>
    requires { kind word.bits ≡ 5 }
    ensures { result ≡ totals_step (AtTotals valves least) word.place word.bits }
{
    let valve = word.field(22, 6);
    let total = word.field(0, 20);
    if word.field(20, 2) != 0 {
        return Err(PaperFault::Unnamed(word.place));
    }
    if valve as usize >= valves || !(1..=MOST_TOTAL).contains(&total) {
        return Err(PaperFault::Limit(word.place));
    }
    if valve < least {
        return Err(PaperFault::Order(word.place));
    }
    Ok(TotalsForm::Totals {
        valves,
        least: valve + 1,
    })
}

impl Form for TotalsForm {
    ghost stepped = { λ s at w. totals_step s at w };

    fn advance(self, word: Word) -> Result<TotalsForm, PaperFault> {
        match (self, word.kind()) {
            (TotalsForm::Head { valves }, Some(Kind::Divisor)) => take_head(valves, word),
            (TotalsForm::Totals { valves, least }, Some(Kind::Total)) => {
                take_total(valves, least, word)
            }
            _ => Err(PaperFault::Kind(word.place)),
        }
    }
}
