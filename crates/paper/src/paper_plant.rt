// A plant that answers from a plant paper, which it holds for reading.
ghost use Rattle.std.specs.Prelude.{◌≡◌, ℕ, ◌+◌, ◌*◌, ◌/◌, ◌^◌, ◌<◌, ◌≤◌, Bool, ◌&&◌, map, length, slice_index, if◌then◌else◌, nat_lt};
ghost use Rattle.std.specs.Option.{option_map};
ghost use Rattle.plant.specs.Limits.{most_tanks, most_valves};
ghost use Rattle.words.specs.Words.{words};
ghost use Rattle.words.specs.Kinds.{number_of};
ghost use Rattle.paper.specs.Arcs.{arc_kind, arc_of, weight_in};
ghost use Rattle.paper.specs.PlantForm.{plant_read, plant_made, plant_counts};
ghost use Rattle.paper.specs.Plants.{Rises, Sided, find_arc};

use crate::form::check_form;
use crate::limits::MOST_PLANT_WORDS;
use crate::plant_form::PlantForm;
use plant::{Counts, Plant};
use words::word::word_at;
use words::{Kind, PaperFault, Word};

// The counts of the plant that a paper is, or the paper's first fault.
pub fn check_plant(paper: &[u8]) -> Result<Counts, PaperFault>
    ensures { result ≡ plant_counts (plant_read paper.now) }
{
    match check_form(PlantForm::Head, paper, MOST_PLANT_WORDS)? {
        PlantForm::Arcs { counts, .. } => Ok(counts),
        PlantForm::Head => unreachable!(),
    }
}

// The counts, and the words of the arcs; of a bad paper no tank, no valve and no arc.
#[derive(Drop)]
pub struct PaperPlant<'a> {
    pub(crate) counts: Counts,
    pub(crate) arcs: &'a [u8],
    ghost few_tanks: { counts.tanks ≤ most_tanks },
    ghost few_valves: { counts.valves ≤ most_valves },
    ghost sided: { Sided (words arcs.now) },
    ghost rises: { Rises (words arcs.now) },
}

// The top 16 bits of an arc word, by which arcs rise: its kind, valve and tank.
fn key_of(kind: Kind, valve: usize, tank: usize) -> u32
    requires { (valve < most_valves) × (tank < most_tanks) }
    ensures { result ≡ (number_of kind * 64 + valve) * 64 + tank }
{
    (u32::from(kind) * 64 + valve as u32) * 64 + tank as u32
}

impl<'a> PaperPlant<'a> {
    ghost use Rattle.paper.specs.OfPlant.{plant_meant};

    // Holds the paper for reading; a bad one makes the empty plant.
    pub fn new(paper: &'a [u8]) -> Self
        ensures { plant_meant result ≡ plant_made (plant_read paper.now) }
    {
        let Ok(counts) = check_plant(paper) else {
            return PaperPlant {
                counts: Counts {
                    tanks: 0,
                    valves: 0,
                },
                arcs: &[],
            };
        };
        PaperPlant {
            counts,
            arcs: &paper[4..],
        }
    }

    // The first arc word that is not below the key: the arcs rise, so each look halves what is left.
    fn seek(&self, key: u32) -> usize
        ensures before { (i : ℕ) → i < result → slice_index (words self.now.arcs.now) i / 2 ^ 16 < key }
        ensures after { (i : ℕ) → result ≤ i → i < length (words self.now.arcs.now) → key ≤ slice_index (words self.now.arcs.now) i / 2 ^ 16 }
    {
        let (arcs, _) = self.arcs.as_chunks::<4>();
        arcs.partition_point(|arc| u32::from_be_bytes(*arc) >> 16 < key)
    }

    // The arc word with this kind, valve and tank.
    fn find(&self, key: u32) -> Option<Word>
        ensures { option_map (λ w. w.bits) result ≡ find_arc key (words self.now.arcs.now) }
    {
        word_at(self.arcs, self.seek(key)).filter(|arc| arc.bits >> 16 == key)
    }

    // The weight of the arc of a kind, a valve and a tank.
    fn weight(&self, kind: Kind, valve: usize, tank: usize) -> u16
        ensures { (gives : Bool) → number_of kind ≡ arc_kind gives → result ≡ (if nat_lt valve self.now.counts.valves && nat_lt tank self.now.counts.tanks then weight_in gives (map arc_of (words self.now.arcs.now)) valve tank else 0) }
    {
        if valve >= self.counts.valves || tank >= self.counts.tanks {
            return 0;
        }
        // A match: in a closure the cast would have to be told its bound.
        match self.find(key_of(kind, valve, tank)) {
            Some(arc) => arc.field(0, 10) as u16,
            None => 0,
        }
    }
}

impl Plant for PaperPlant<'_> {
    ghost use Rattle.paper.specs.Bounds.{paper_bounded};
    ghost use Rattle.paper.specs.OfPlant.{plant_meant};

    ghost meaning = { λ x. plant_meant x };

    ghost bounded = { λ x. paper_bounded x.counts.tanks x.counts.valves (words x.arcs.now) x.few_tanks x.few_valves };

    fn counts(&self) -> Counts {
        self.counts
    }

    fn is_open(&self, valve: usize) -> bool {
        valve < self.counts.valves
    }

    // Two questions of the trait, alike but for the kind of arc; valve and tank are the trait's parameters, here and above.
    fn intake(&self, valve: usize, tank: usize) -> u16 {
        self.weight(Kind::Intake, valve, tank)
    }

    fn outlet(&self, valve: usize, tank: usize) -> u16 {
        self.weight(Kind::Outlet, valve, tank)
    }
}
