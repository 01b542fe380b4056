// What weighings answer: the number and the place of the first fault, or that the fillings are joined.
use crate::sheets::{MIXER, Trial, first_misnamed, refusal_of, written};
use paper::PaperPlant;
use plant::limits::MOST_VALVES;
use plant::{Narrowed, Plant, RingMain, Turned};
use starting::first_left_out;
use std::test::Fail;
use weighing::faults::{QuestionFault, Side, TotalsFault, WeighingFault};
use weighing::weigh::weigh;
use words::{PaperFault, Part, WordFault};

// Two fillings, and the number and the place of the refusal that they meet: None where they are joined.
#[derive(Clone, Copy)]
struct Asked {
    source: &'static [u32],
    target: &'static [u32],
    refused: Option<(u32, usize)>,
}

// A totals paper of divisor 1 without totals.
static NO_TOTALS: [u8; 4] = [0x40, 0, 0, 1];

// On a ring of two tanks.
static FILLINGS: [Asked; 13] = [
    // as many amounts as tanks, one fewer, one more
    Asked {
        source: &[0, 0],
        target: &[0, 0],
        refused: None,
    },
    Asked {
        source: &[0],
        target: &[0, 0],
        refused: Some((10, 0)),
    },
    Asked {
        source: &[0, 0, 0],
        target: &[0, 0],
        refused: Some((10, 0)),
    },
    Asked {
        source: &[0, 0],
        target: &[0],
        refused: Some((10, 1)),
    },
    Asked {
        source: &[0, 0],
        target: &[0, 0, 0],
        refused: Some((10, 1)),
    },
    Asked {
        source: &[],
        target: &[],
        refused: Some((10, 0)),
    },
    // 1,000,000 and 1,000,001
    Asked {
        source: &[1_000_000, 0],
        target: &[1_000_000, 0],
        refused: None,
    },
    Asked {
        source: &[1_000_001, 0],
        target: &[0, 0],
        refused: Some((11, 0)),
    },
    Asked {
        source: &[0, 1_000_001],
        target: &[0, 0],
        refused: Some((11, 1)),
    },
    Asked {
        source: &[0, 0],
        target: &[1_000_001, 0],
        refused: Some((11, 64)),
    },
    Asked {
        source: &[0, 0],
        target: &[0, 1_000_001],
        refused: Some((11, 65)),
    },
    // the source before the target, lengths before amounts
    Asked {
        source: &[0, 1_000_001],
        target: &[1_000_001, 0],
        refused: Some((11, 1)),
    },
    Asked {
        source: &[1_000_001, 0],
        target: &[0],
        refused: Some((10, 1)),
    },
];

#[test]
fn fillings(rt: HostRuntime) {
    let ring = RingMain::new(2);
    for asked in FILLINGS {
        assert_eq!(rt;
            refusal_of(weigh(&ring, asked.source, asked.target, &NO_TOTALS)),
            asked.refused
        );
    }
}

// The last tank of 64 is named by 63 in the source and by 127 in the target.
#[test]
fn last_of_64_tanks(rt: HostRuntime) {
    let ring = RingMain::new(64);
    let low = [0; 64];
    let mut high = [0; 64];
    high[63] = 1_000_001;
    assert_eq!(rt;
        refusal_of(weigh(&ring, &high, &low, &NO_TOTALS)),
        Some((11, 63))
    );
    assert_eq!(rt;
        refusal_of(weigh(&ring, &low, &high, &NO_TOTALS)),
        Some((11, 127))
    );
    high[63] = 1_000_000;
    assert_eq!(rt; refusal_of(weigh(&ring, &high, &high, &NO_TOTALS)), None);
}

// Both valves of a ring of two tanks totalled: a closed one is refused at its word.
#[test]
fn closed_valves(rt: HostRuntime) -> Result<(), Fail> {
    let both = written(rt.alloc(), &[0x4000_0001, 0x5000_0001, 0x5040_0001])?;
    for (first, second, refused) in [
        (false, false, None),
        (true, false, Some((12, 1))),
        (false, true, Some((12, 2))),
        (true, true, Some((12, 1))),
    ] {
        let mut shut = [false; MOST_VALVES];
        shut[0] = first;
        shut[1] = second;
        let narrowed = Narrowed {
            below: RingMain::new(2),
            shut,
        };
        assert_eq!(rt;
            refusal_of(weigh(&narrowed, &[1, 0], &[1, 0], &both)),
            refused
        );
    }
    Ok(())
}

// Evidence on the mixer, from (2,0,1) to (0,0,3).
static EVIDENCE: [Trial; 9] = [
    Trial {
        words: &[0x4000_0001, 0x5000_0002, 0x5040_0002],
        refused: None,
    },
    Trial {
        words: &[0x4000_0002, 0x5000_0004, 0x5040_0004],
        refused: None,
    },
    Trial {
        words: &[],
        refused: Some((2, 0)),
    },
    Trial {
        words: &[0x6000_0000],
        refused: Some((4, 0)),
    },
    Trial {
        words: &[0x4000_0001, 0x5000_0002, 0x5040_0000],
        refused: Some((7, 2)),
    },
    Trial {
        words: &[0x4000_0001, 0x5000_0002, 0x5080_0001],
        refused: Some((7, 2)),
    },
    Trial {
        words: &[0x4000_0001, 0x5040_0002, 0x5000_0002],
        refused: Some((8, 2)),
    },
    Trial {
        words: &[0x4000_0001],
        refused: Some((13, 0)),
    },
    Trial {
        words: &[0x4000_0001, 0x5000_0002, 0x5040_0001],
        refused: Some((13, 1)),
    },
];

#[test]
fn evidence(rt: HostRuntime) -> Result<(), Fail> {
    let bytes = written(rt.alloc(), &MIXER)?;
    let mixer = PaperPlant::new(&bytes);
    for trial in EVIDENCE {
        let evidence = written(rt.alloc(), trial.words)?;
        assert_eq!(rt;
            refusal_of(weigh(&mixer, &[2, 0, 1], &[0, 0, 3], &evidence)),
            trial.refused
        );
    }
    Ok(())
}

// Totals of 2 and 2 on the mixer.
static STARTS: [Asked; 4] = [
    Asked {
        source: &[2, 0, 1],
        target: &[0, 0, 3],
        refused: None,
    },
    Asked {
        source: &[2, 0, 0],
        target: &[0, 0, 2],
        refused: Some((14, 1)),
    },
    Asked {
        source: &[2, 0, 1],
        target: &[0, 0, 2],
        refused: Some((13, 2)),
    },
    Asked {
        source: &[2, 0, 0],
        target: &[0, 0, 3],
        refused: Some((13, 2)),
    },
];

#[test]
fn starts(rt: HostRuntime) -> Result<(), Fail> {
    let bytes = written(rt.alloc(), &MIXER)?;
    let mixer = PaperPlant::new(&bytes);
    let evidence = written(rt.alloc(), &[0x4000_0001, 0x5000_0002, 0x5040_0002])?;
    for asked in STARTS {
        assert_eq!(rt;
            refusal_of(weigh(&mixer, asked.source, asked.target, &evidence)),
            asked.refused
        );
    }
    Ok(())
}

// One valve takes 2 from its tank and gives 1 back: it runs from 2 to 1, but never dry.
#[test]
fn ends(rt: HostRuntime) -> Result<(), Fail> {
    let bytes = written(rt.alloc(), &[0x1000_0081, 0x2000_0002, 0x3000_0001])?;
    let leaky = PaperPlant::new(&bytes);
    let evidence = written(rt.alloc(), &[0x4000_0001, 0x5000_0001])?;
    assert_eq!(rt; refusal_of(weigh(&leaky, &[2], &[1], &evidence)), None);
    assert_eq!(rt;
        refusal_of(weigh(&leaky, &[1], &[0], &evidence)),
        Some((15, 0))
    );
    Ok(())
}

// The largest divisor with the largest total, and with the largest amounts.
#[test]
fn largest_numbers(rt: HostRuntime) -> Result<(), Fail> {
    let ring = RingMain::new(2);
    let evidence = written(rt.alloc(), &[0x400f_4240, 0x500f_4240])?;
    assert_eq!(rt; refusal_of(weigh(&ring, &[1, 0], &[0, 1], &evidence)), None);
    assert_eq!(rt;
        refusal_of(weigh(
            &ring,
            &[1_000_000, 999_999],
            &[999_999, 1_000_000],
            &evidence,
        )),
        None
    );
    assert_eq!(rt;
        refusal_of(weigh(
            &ring,
            &[1_000_000, 1_000_000],
            &[1_000_000, 1_000_000],
            &evidence,
        )),
        Some((13, 0))
    );
    Ok(())
}

// On the empty plant only empty fillings are joined, and no valve can be totalled.
#[test]
fn empty_plant(rt: HostRuntime) {
    let empty = RingMain::new(1);
    assert_eq!(rt; refusal_of(weigh(&empty, &[], &[], &NO_TOTALS)), None);
    assert_eq!(rt;
        refusal_of(weigh(&empty, &[0], &[], &NO_TOTALS)),
        Some((10, 0))
    );
    assert_eq!(rt;
        refusal_of(weigh(&empty, &[], &[], &[0x40, 0, 0, 1, 0x50, 0, 0, 1])),
        Some((7, 1))
    );
}

// From one full tank all 64 valves of a ring start, turned as well, where each round lets one go.
#[test]
fn ring_of_64_starts(rt: HostRuntime) {
    let ring = RingMain::new(64);
    let all = [true; MOST_VALVES];
    assert_eq!(rt; first_left_out(&ring, &[1], &all), None);
    assert_eq!(rt; first_left_out(&Turned { below: ring }, &[1], &all), None);
    assert_eq!(rt; first_left_out(&ring, &[0; 64], &all), Some(0));
}

// The number, the place and the part of each fault.
#[test]
fn refusals_of_weighings(rt: HostRuntime) {
    let faults = [
        (
            WeighingFault::Question(QuestionFault::Length(Side::Source)),
            10,
            0,
            Part::Question,
        ),
        (
            WeighingFault::Question(QuestionFault::Length(Side::Target)),
            10,
            1,
            Part::Question,
        ),
        (
            WeighingFault::Question(QuestionFault::Amount(Side::Source, 63)),
            11,
            63,
            Part::Question,
        ),
        (
            WeighingFault::Question(QuestionFault::Amount(Side::Target, 0)),
            11,
            64,
            Part::Question,
        ),
        (
            WeighingFault::Question(QuestionFault::Amount(Side::Target, 63)),
            11,
            127,
            Part::Question,
        ),
        (
            WeighingFault::Paper(PaperFault::Words(WordFault::Long(8193))),
            3,
            8193,
            Part::Words,
        ),
        (
            WeighingFault::Paper(PaperFault::Order(2)),
            8,
            2,
            Part::Paper,
        ),
        (
            WeighingFault::Totals(TotalsFault::Closed(1)),
            12,
            1,
            Part::Weighing,
        ),
        (
            WeighingFault::Totals(TotalsFault::Unbalanced(63)),
            13,
            63,
            Part::Weighing,
        ),
        (
            WeighingFault::Totals(TotalsFault::NoStart(63)),
            14,
            63,
            Part::Weighing,
        ),
        (
            WeighingFault::Totals(TotalsFault::NoEnd(0)),
            15,
            0,
            Part::Weighing,
        ),
    ];
    assert_eq!(rt; first_misnamed(&faults), None);
}
