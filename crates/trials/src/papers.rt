// What is read of papers: the number and the place of the first fault.
use crate::sheets::{
    Trial, first_misnamed, first_unnoticed, first_wrong, refusal_of, written, written_out,
};
use paper::{Total, TotalsPaper, check_plant};
use plant::Counts;
use std::test::Fail;
use words::{PaperFault, Part, WordFault};

static PLANTS: [Trial; 24] = [
    // 0, 1, 64 and 65 tanks and valves
    Trial {
        words: &[0x1000_0001],
        refused: Some((7, 0)),
    },
    Trial {
        words: &[0x1000_0080],
        refused: Some((7, 0)),
    },
    Trial {
        words: &[0x1000_0081],
        refused: None,
    },
    Trial {
        words: &[0x1000_2040],
        refused: None,
    },
    Trial {
        words: &[0x1000_20c0],
        refused: Some((7, 0)),
    },
    Trial {
        words: &[0x1000_2041],
        refused: Some((7, 0)),
    },
    // the head and the arcs in their places
    Trial {
        words: &[0x2000_0001],
        refused: Some((4, 0)),
    },
    Trial {
        words: &[0x1000_0081, 0x1000_0081],
        refused: Some((4, 1)),
    },
    Trial {
        words: &[0x1000_0081, 0x4000_0001],
        refused: Some((4, 1)),
    },
    // weights 0, 1 and 1,023
    Trial {
        words: &[0x1000_0081, 0x2000_0000],
        refused: Some((7, 1)),
    },
    Trial {
        words: &[0x1000_0081, 0x2000_0001],
        refused: None,
    },
    Trial {
        words: &[0x1000_0081, 0x3000_0000],
        refused: Some((7, 1)),
    },
    Trial {
        words: &[0x1000_0081, 0x3000_03ff],
        refused: None,
    },
    // the last valve and tank, and one past them
    Trial {
        words: &[0x1000_0102, 0x2041_0001],
        refused: None,
    },
    Trial {
        words: &[0x1000_0102, 0x2081_0001],
        refused: Some((7, 1)),
    },
    Trial {
        words: &[0x1000_0102, 0x2042_0001],
        refused: Some((7, 1)),
    },
    Trial {
        words: &[0x1000_2040, 0x2fff_0001, 0x3fff_0001],
        refused: None,
    },
    // arcs that rise by one, that are equal, and that fall by tank, by valve and by kind
    Trial {
        words: &[0x1000_0102, 0x2000_0001, 0x2001_0001],
        refused: None,
    },
    Trial {
        words: &[0x1000_0102, 0x2001_0001, 0x2001_0002],
        refused: Some((8, 2)),
    },
    Trial {
        words: &[0x1000_0102, 0x2001_0001, 0x2000_0002],
        refused: Some((8, 2)),
    },
    Trial {
        words: &[0x1000_0102, 0x3040_0001, 0x3001_0001],
        refused: Some((8, 2)),
    },
    Trial {
        words: &[0x1000_0102, 0x3000_0001, 0x2041_0001],
        refused: Some((8, 2)),
    },
    // the first fault of a word, and the first word that has one
    Trial {
        words: &[0x1000_0102, 0x3000_0001, 0x2041_0400],
        refused: Some((6, 2)),
    },
    Trial {
        words: &[0x1000_0102, 0x2041_0000, 0x4000_0000],
        refused: Some((7, 1)),
    },
];

// On a plant with two valves.
static TOTALS: [Trial; 17] = [
    // divisor 0, 1, 1,000,000 and 1,000,001
    Trial {
        words: &[0x4000_0000],
        refused: Some((7, 0)),
    },
    Trial {
        words: &[0x4000_0001],
        refused: None,
    },
    Trial {
        words: &[0x400f_4240],
        refused: None,
    },
    Trial {
        words: &[0x400f_4241],
        refused: Some((7, 0)),
    },
    // total 0, 1, 1,000,000 and 1,000,001
    Trial {
        words: &[0x4000_0001, 0x5000_0000],
        refused: Some((7, 1)),
    },
    Trial {
        words: &[0x4000_0001, 0x5000_0001],
        refused: None,
    },
    Trial {
        words: &[0x4000_0001, 0x500f_4240],
        refused: None,
    },
    Trial {
        words: &[0x4000_0001, 0x500f_4241],
        refused: Some((7, 1)),
    },
    // the last valve, and one past it
    Trial {
        words: &[0x4000_0001, 0x5040_0001],
        refused: None,
    },
    Trial {
        words: &[0x4000_0001, 0x5080_0001],
        refused: Some((7, 1)),
    },
    // totals that rise by one, that are equal, and that fall
    Trial {
        words: &[0x4000_0001, 0x5000_0001, 0x5040_0001],
        refused: None,
    },
    Trial {
        words: &[0x4000_0001, 0x5040_0001, 0x5040_0001],
        refused: Some((8, 2)),
    },
    Trial {
        words: &[0x4000_0001, 0x5040_0001, 0x5000_0001],
        refused: Some((8, 2)),
    },
    // the head and the totals in their places; a case word
    Trial {
        words: &[0x5000_0001],
        refused: Some((4, 0)),
    },
    Trial {
        words: &[0x6000_0000],
        refused: Some((4, 0)),
    },
    Trial {
        words: &[0x4000_0001, 0x4000_0001],
        refused: Some((4, 1)),
    },
    // the first fault of a word
    Trial {
        words: &[0x4000_0001, 0x5040_0001, 0x5010_0000],
        refused: Some((6, 2)),
    },
];

#[test]
fn plant_papers(rt: HostRuntime) -> Result<(), Fail> {
    let met = |bytes: &[u8]| refusal_of(check_plant(bytes));
    assert_eq!(rt; first_wrong(rt.alloc(), &[], &PLANTS, met)?, None);
    Ok(())
}

#[test]
fn totals_papers(rt: HostRuntime) -> Result<(), Fail> {
    let met = |bytes: &[u8]| refusal_of(TotalsPaper::read(bytes, 2));
    assert_eq!(rt; first_wrong(rt.alloc(), &[], &TOTALS, met)?, None);
    Ok(())
}

// The place of a word, and its unnamed bits: from the lowest to before the highest.
static PLANT_BITS: [(usize, u32, u32); 3] = [(0, 14, 28), (1, 10, 16), (2, 10, 16)];

static TOTALS_BITS: [(usize, u32, u32); 2] = [(0, 20, 28), (1, 20, 22)];

// In a head, an intake arc and an outlet arc.
#[test]
fn unnamed_bits_of_plants(rt: HostRuntime) -> Result<(), Fail> {
    let words = [0x1000_0081, 0x2000_0001, 0x3000_0001];
    let met = |bytes: &[u8]| refusal_of(check_plant(bytes));
    assert_eq!(rt; first_unnoticed(rt.alloc(), words, &PLANT_BITS, met)?, None);
    Ok(())
}

// In a totals head and a total.
#[test]
fn unnamed_bits_of_totals(rt: HostRuntime) -> Result<(), Fail> {
    let words = [0x4000_0001, 0x5000_0001];
    let met = |bytes: &[u8]| refusal_of(TotalsPaper::read(bytes, 1));
    assert_eq!(rt;
        first_unnoticed(rt.alloc(), words, &TOTALS_BITS, met)?,
        None
    );
    Ok(())
}

// No bytes are no paper, and a paper of broken words is refused at the number of its whole words.
#[test]
fn broken_lengths(rt: HostRuntime) {
    let plant = [0x10, 0, 0, 0x81, 0x20, 0, 0, 1, 0];
    let totals = [0x40, 0, 0, 1, 0x50, 0, 0, 1, 0];
    for (length, refused) in [
        (0, Some((2, 0))),
        (1, Some((1, 0))),
        (2, Some((1, 0))),
        (3, Some((1, 0))),
        (4, None),
        (5, Some((1, 1))),
        (7, Some((1, 1))),
        (8, None),
        (9, Some((1, 2))),
    ] {
        assert!(rt; length <= 9);
        assert_eq!(rt; refusal_of(check_plant(&plant[0..length])), refused);
        assert_eq!(rt;
            refusal_of(TotalsPaper::read(&totals[0..length], 1)),
            refused
        );
    }
}

// A plant paper has at most 4,096 words, an evidence paper at most 8,192. The 65th total would be a word of kind 6.
#[test]
fn long_papers(rt: HostRuntime) -> Result<(), Fail> {
    for (arcs, refused) in [(4095, None), (4096, Some((3, 4097)))] {
        let bytes = written_out(rt.alloc(), 0x1000_2040, 0x2000_0001, 0x1_0000, arcs)?;
        assert_eq!(rt; refusal_of(check_plant(&bytes)), refused);
    }
    for (totals, refused) in [
        (64, None),
        (65, Some((4, 65))),
        (8191, Some((4, 65))),
        (8192, Some((3, 8193))),
    ] {
        let bytes = written_out(rt.alloc(), 0x4000_0001, 0x5000_0001, 0x40_0000, totals)?;
        assert_eq!(rt; refusal_of(TotalsPaper::read(&bytes, 64)), refused);
    }
    Ok(())
}

// A paper that is read gives its counts, its divisor and its totals back.
#[test]
fn what_is_read(rt: HostRuntime) -> Result<(), Fail> {
    let plant = written(rt.alloc(), &[0x1000_2001])?;
    let counts = Counts {
        tanks: 64,
        valves: 1,
    };
    assert_eq!(rt; check_plant(&plant)?, counts);
    let bytes = written(rt.alloc(), &[0x400f_4240, 0x5000_0001, 0x5fcf_4240])?;
    let totals = TotalsPaper::read(&bytes, 64)?;
    assert_eq!(rt; totals.divisor(), 1_000_000);
    let mut reader = totals.totals();
    for (place, valve, amount) in [(1, 0, 1), (2, 63, 1_000_000)] {
        assert_eq!(rt; reader.place(), place);
        let word = reader.next().ok_or("a total is missing")?;
        assert_eq!(rt; word.place, place);
        assert_eq!(rt; Total::from(word), Total { valve, amount });
    }
    assert_eq!(rt; reader.next(), None);
    Ok(())
}

// The number, the place and the part of each fault.
#[test]
fn refusals_of_papers(rt: HostRuntime) {
    let faults = [
        (PaperFault::Words(WordFault::Ragged(5)), 1, 5, Part::Words),
        (PaperFault::Words(WordFault::Empty), 2, 0, Part::Words),
        (PaperFault::Words(WordFault::Long(9)), 3, 9, Part::Words),
        (PaperFault::Kind(3), 4, 3, Part::Paper),
        (PaperFault::Unnamed(0), 6, 0, Part::Paper),
        (PaperFault::Limit(1), 7, 1, Part::Paper),
        (PaperFault::Order(2), 8, 2, Part::Paper),
    ];
    assert_eq!(rt; first_misnamed(&faults), None);
}
