// The form of a plant paper.
ghost use Rattle.std.specs.Prelude.{◌≡◌, true, ◌||◌, ◌==◌};
ghost use Rattle.words.specs.Words.{kind};
ghost use Rattle.paper.specs.PlantForm.{plant_step};
ghost use Rattle.paper.specs.declared.plant_form.PlantForm.TheVariants.{Head, Arcs};

use crate::form::Form;
use plant::Counts;
use plant::limits::{MOST_TANKS, MOST_VALVES};
use words::{Kind, PaperFault, Word};

// Before the head, or after it: the counts, and the least that the next arc's kind, valve and tank may be.
#[derive(Clone, Copy, Debug, PartialEq, Eq)]
pub enum PlantForm {
    Head,
    Arcs { counts: Counts, least: u32 },
}

// The head gives the counts.
fn take_head(word: Word) -> Result<PlantForm, PaperFault>
    requires { kind word.bits ≡ 1 }
    ensures { result ≡ plant_step Head word.place word.bits }
{
    let tanks = word.field(7, 7) as usize;
    let valves = word.field(0, 7) as usize;
    if word.field(14, 14) != 0 {
        return Err(PaperFault::Unnamed(word.place));
    }
    if !(1..=MOST_TANKS).contains(&tanks) || !(1..=MOST_VALVES).contains(&valves) {
        return Err(PaperFault::Limit(word.place));
    }
    Ok(PlantForm::Arcs {
        counts: Counts { tanks, valves },
        least: 0,
    })
}

// An arc lies inside the counts and rises.
fn take_arc(counts: Counts, least: u32, word: Word) -> Result<PlantForm, PaperFault>
    requires { (kind word.bits == 2 || kind word.bits == 3) ≡ true }
    ensures { result ≡ plant_step (Arcs counts least) word.place word.bits }
{
    let key = word.bits >> 16;
    let valve = word.field(22, 6) as usize;
    let tank = word.field(16, 6) as usize;
    if word.field(10, 6) != 0 {
        return Err(PaperFault::Unnamed(word.place));
    }
    if valve >= counts.valves || tank >= counts.tanks || word.field(0, 10) < 1 {
        return Err(PaperFault::Limit(word.place));
    }
    if key < least {
        return Err(PaperFault::Order(word.place));
    }
    Ok(PlantForm::Arcs {
        counts,
        least: key + 1,
    })
}

impl Form for PlantForm {
    ghost stepped = { λ s at w. plant_step s at w };

    fn advance(self, word: Word) -> Result<PlantForm, PaperFault> {
        match (self, word.kind()) {
            (PlantForm::Head, Some(Kind::Counts)) => take_head(word),
            (PlantForm::Arcs { counts, least }, Some(Kind::Intake | Kind::Outlet)) => {
                take_arc(counts, least, word)
            }
            _ => Err(PaperFault::Kind(word.place)),
        }
    }
}
