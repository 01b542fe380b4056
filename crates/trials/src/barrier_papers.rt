// What is read of barrier papers: the number and the place of the first fault, and the parts of a paper that has none.
use crate::sheets::{
    Trial, first_misnamed, first_unnoticed, first_wrong, put, refusal_of, written,
};
use barrier_paper::BarrierPaper;
use barrier_paper::step_words::{MatchWord, StepWord};
use barrier_paper::weights::line_weights;
use barrier_paper::windows::{count_kind, line, part_of, seek};
use lines::Way;
use plant::Counts;
use std::alloc::{AllocError, Global};
use std::test::Fail;
use words::{Kind, PaperFault, Part, Word};

// The number and the place of the refusal that a barrier paper meets on a plant with so many tanks and valves, if it meets one.
fn met(bytes: &[u8], tanks: usize, valves: usize) -> Option<(u32, usize)> {
    refusal_of(BarrierPaper::read(bytes, Counts { tanks, valves }))
}

// The first trial that meets another answer than it tells, on a plant with two tanks and two valves.
fn first_wrong_on_two(
    heap: Global,
    head: &[u32],
    trials: &[Trial],
) -> Result<Option<usize>, AllocError> {
    first_wrong(heap, head, trials, |bytes: &[u8]| met(bytes, 2, 2))
}

// A word, and so many times another.
fn put_with(bytes: &mut Vec<u8>, head: u32, count: usize, word: u32) -> Result<(), AllocError> {
    put(bytes, head)?;
    for _ in 0..count {
        put(bytes, word)?;
    }
    Ok(())
}

// So many cases with so many lines each, then so many steps by direction, case and valve into case 0, each with its matches,
// which name the last line.
fn stepped(heap: Global, cases: usize, lines: u32, steps: u32) -> Result<Vec<u8>, AllocError> {
    let mut bytes = Vec::new(heap);
    for _ in 0..cases {
        put_with(&mut bytes, 0x6000_0000, lines as usize, 0x7000_0000)?;
    }
    for key in 0..steps {
        put_with(
            &mut bytes,
            0xa000_0000 | key % 2048 << 17,
            lines as usize,
            0xb000_0000 | lines.saturating_sub(1) % 16 << 24,
        )?;
    }
    Ok(bytes)
}

static CASES: [Trial; 11] = [
    // a barrier of one case and nothing else, and one without steps
    Trial {
        words: &[0x6000_0000],
        refused: None,
    },
    Trial {
        words: &[0x6000_0000, 0x7000_0001, 0x6000_0000, 0x7000_0000],
        refused: None,
    },
    // a case comes first
    Trial {
        words: &[0x7000_0000],
        refused: Some((4, 0)),
    },
    Trial {
        words: &[0xa000_0000],
        refused: Some((4, 0)),
    },
    Trial {
        words: &[0x4000_0001],
        refused: Some((4, 0)),
    },
    // a weight belongs to a line, and a match to a step
    Trial {
        words: &[0x6000_0000, 0x8000_0001],
        refused: Some((4, 1)),
    },
    Trial {
        words: &[0x6000_0000, 0x9000_0001],
        refused: Some((4, 1)),
    },
    Trial {
        words: &[0x6000_0000, 0x7000_0000, 0xb000_0000],
        refused: Some((4, 2)),
    },
    // kinds that no barrier paper has
    Trial {
        words: &[0x6000_0000, 0x5000_0001],
        refused: Some((4, 1)),
    },
    Trial {
        words: &[0x6000_0000, 0x7000_0000, 0xc000_0000],
        refused: Some((4, 2)),
    },
    Trial {
        words: &[0x6000_0000, 0x7000_0000, 0x0000_0000],
        refused: Some((4, 2)),
    },
];

// The weights of a case's first line.
static WEIGHTS: [Trial; 22] = [
    // sizes 0, 1, 10,000 and 10,001, left and right, with either sign
    Trial {
        words: &[0x8000_0000],
        refused: Some((7, 2)),
    },
    Trial {
        words: &[0x8000_0001],
        refused: None,
    },
    Trial {
        words: &[0x8000_2710],
        refused: None,
    },
    Trial {
        words: &[0x8000_2711],
        refused: Some((7, 2)),
    },
    Trial {
        words: &[0x9000_4000],
        refused: Some((7, 2)),
    },
    Trial {
        words: &[0x9000_4001],
        refused: None,
    },
    Trial {
        words: &[0x9000_6710],
        refused: None,
    },
    Trial {
        words: &[0x9000_6711],
        refused: Some((7, 2)),
    },
    // the last tank, and one past it
    Trial {
        words: &[0x8040_0001, 0x9040_0001],
        refused: None,
    },
    Trial {
        words: &[0x8080_0001],
        refused: Some((7, 2)),
    },
    Trial {
        words: &[0x9080_0001],
        refused: Some((7, 2)),
    },
    // tanks that rise by one, that are equal, and that fall
    Trial {
        words: &[0x8000_0001, 0x8040_0001, 0x9000_0001, 0x9040_0001],
        refused: None,
    },
    Trial {
        words: &[0x8000_0001, 0x8000_0001],
        refused: Some((8, 3)),
    },
    Trial {
        words: &[0x8040_0001, 0x8000_0001],
        refused: Some((8, 3)),
    },
    Trial {
        words: &[0x9000_0001, 0x9000_4001],
        refused: Some((8, 3)),
    },
    Trial {
        words: &[0x9040_0001, 0x9000_0001],
        refused: Some((8, 3)),
    },
    // right weights begin anew, and so does the next line
    Trial {
        words: &[0x8040_0001, 0x9000_0001],
        refused: None,
    },
    Trial {
        words: &[0x9040_0001, 0x7000_0000, 0x8000_0001],
        refused: None,
    },
    // a left weight after a right one
    Trial {
        words: &[0x8000_0001, 0x9000_0001, 0x8040_0001],
        refused: Some((4, 4)),
    },
    // the first fault of a word
    Trial {
        words: &[0x8040_0001, 0x8000_0000],
        refused: Some((7, 3)),
    },
    Trial {
        words: &[0x8040_0001, 0x8000_8000],
        refused: Some((6, 3)),
    },
    Trial {
        words: &[0x9040_0001, 0x8000_8000],
        refused: Some((4, 3)),
    },
];

// Steps after two cases, the first with one line and the second with none.
static STEPS: [Trial; 19] = [
    // within a case, and from one to the other: into the second no match is due
    Trial {
        words: &[0xa000_0000, 0xb000_0000, 0xa002_2000, 0xa082_2000],
        refused: None,
    },
    // a case that is not there
    Trial {
        words: &[0xa100_2000],
        refused: Some((7, 3)),
    },
    Trial {
        words: &[0xa000_4000],
        refused: Some((7, 3)),
    },
    // one past the last valve
    Trial {
        words: &[0xa004_2000],
        refused: Some((7, 3)),
    },
    // steps that rise by direction; that are equal; that fall by valve, by case and by direction
    Trial {
        words: &[0xa082_2000, 0xa800_2000],
        refused: None,
    },
    Trial {
        words: &[0xa000_2000, 0xa000_2000],
        refused: Some((8, 4)),
    },
    Trial {
        words: &[0xa002_2000, 0xa000_2000],
        refused: Some((8, 4)),
    },
    Trial {
        words: &[0xa080_2000, 0xa002_2000],
        refused: Some((8, 4)),
    },
    Trial {
        words: &[0xa800_2000, 0xa082_2000],
        refused: Some((8, 4)),
    },
    // also over the matches between them
    Trial {
        words: &[0xa000_0000, 0xb000_0000, 0xa000_2000],
        refused: Some((8, 5)),
    },
    // cases, lines and weights come before the steps
    Trial {
        words: &[0xa000_2000, 0x6000_0000],
        refused: Some((4, 4)),
    },
    Trial {
        words: &[0xa000_2000, 0x7000_0000],
        refused: Some((4, 4)),
    },
    Trial {
        words: &[0xa000_2000, 0x8000_0001],
        refused: Some((4, 4)),
    },
    Trial {
        words: &[0xa000_2000, 0x9000_0001],
        refused: Some((4, 4)),
    },
    // the first fault of a word
    Trial {
        words: &[0xa002_2000, 0xa000_4000],
        refused: Some((7, 4)),
    },
    Trial {
        words: &[0xa002_2000, 0xa000_4001],
        refused: Some((6, 4)),
    },
    // and the first word that has one
    Trial {
        words: &[0xa004_2000, 0xc000_0000],
        refused: Some((7, 3)),
    },
    // a step comes right after a case, a line or a weight
    Trial {
        words: &[0x7000_0000, 0xa000_0000, 0xb000_0000],
        refused: None,
    },
    Trial {
        words: &[0x7000_0000, 0x9000_0001, 0xa000_0000, 0xb000_0000],
        refused: None,
    },
];

// Matches after the same two cases.
static MATCHES: [Trial; 12] = [
    // one match for the line of the first case, with the smallest and the largest factors
    Trial {
        words: &[0xa000_0000, 0xb000_0000],
        refused: None,
    },
    Trial {
        words: &[0xa000_0000, 0xb0ff_ffff],
        refused: None,
    },
    // still due at the end
    Trial {
        words: &[0xa000_0000],
        refused: Some((5, 4)),
    },
    Trial {
        words: &[0x7000_0000, 0x7000_0000, 0xa000_2000, 0xb000_0000],
        refused: Some((5, 7)),
    },
    // another kind while one is due
    Trial {
        words: &[0xa000_0000, 0xa002_2000],
        refused: Some((4, 4)),
    },
    Trial {
        words: &[0xa000_0000, 0x6000_0000],
        refused: Some((4, 4)),
    },
    Trial {
        words: &[0xa000_0000, 0xf000_0000],
        refused: Some((4, 4)),
    },
    // one too many, also where the case has no lines
    Trial {
        words: &[0xa000_0000, 0xb000_0000, 0xb000_0000],
        refused: Some((4, 5)),
    },
    Trial {
        words: &[0xa000_2000, 0xb000_0000],
        refused: Some((4, 4)),
    },
    // no case follows a match
    Trial {
        words: &[0xa000_0000, 0xb000_0000, 0x6000_0000],
        refused: Some((4, 5)),
    },
    // a line that the case left does not have
    Trial {
        words: &[0xa000_0000, 0xb100_0000],
        refused: Some((7, 4)),
    },
    Trial {
        words: &[0xa080_0000, 0xb000_0000],
        refused: Some((7, 4)),
    },
];

#[test]
fn cases_of_barriers(rt: HostRuntime) -> Result<(), Fail> {
    assert_eq!(rt; first_wrong_on_two(rt.alloc(), &[], &CASES)?, None);
    Ok(())
}

#[test]
fn weights_of_lines(rt: HostRuntime) -> Result<(), Fail> {
    let head = [0x6000_0000, 0x7000_0000];
    assert_eq!(rt; first_wrong_on_two(rt.alloc(), &head, &WEIGHTS)?, None);
    Ok(())
}

#[test]
fn steps_of_barriers(rt: HostRuntime) -> Result<(), Fail> {
    let head = [0x6000_0000, 0x7000_0000, 0x6000_0000];
    assert_eq!(rt; first_wrong_on_two(rt.alloc(), &head, &STEPS)?, None);
    Ok(())
}

// A table, and so a test, of its own.
#[test]
fn matches_of_steps(rt: HostRuntime) -> Result<(), Fail> {
    let head = [0x6000_0000, 0x7000_0000, 0x6000_0000];
    assert_eq!(rt; first_wrong_on_two(rt.alloc(), &head, &MATCHES)?, None);
    Ok(())
}

// The place of a word, and its unnamed bits: from the lowest to before the highest. A match has none.
static BITS: [(usize, u32, u32); 5] = [
    (0, 0, 28),
    (1, 1, 28),
    (2, 15, 22),
    (3, 15, 22),
    (4, 0, 13),
];

// In a case, a line, a left weight, a right weight and a step.
#[test]
fn unnamed_bits_of_barriers(rt: HostRuntime) -> Result<(), Fail> {
    let words = [
        0x6000_0000,
        0x7000_0000,
        0x8000_0001,
        0x9000_0001,
        0xa000_0000,
        0xb000_0000,
    ];
    let met = |bytes: &[u8]| met(bytes, 1, 1);
    assert_eq!(rt; first_unnoticed(rt.alloc(), words, &BITS, met)?, None);
    Ok(())
}

// At most 16 cases, and at most 16 lines to each, the last of which can be named. The first of the lines too many is in the first case.
#[test]
fn many_cases_and_lines(rt: HostRuntime) -> Result<(), Fail> {
    for (cases, lines, steps, refused) in [
        (16, 0, 0, None),
        (17, 0, 0, Some((9, 16))),
        (1, 16, 0, None),
        (1, 17, 0, Some((9, 17))),
        (16, 16, 1, None),
        (17, 16, 1, Some((9, 272))),
        (16, 17, 1, Some((9, 17))),
    ] {
        let bytes = stepped(rt.alloc(), cases, lines, steps)?;
        assert_eq!(rt; met(&bytes, 1, 1), refused);
    }
    // an unnamed bit of the 17th case comes before that there are too many
    let mut bytes = stepped(rt.alloc(), 16, 0, 0)?;
    put(&mut bytes, 0x6000_0001)?;
    assert_eq!(rt; met(&bytes, 1, 1), Some((6, 16)));
    Ok(())
}

// Every step that there can be, by direction, case and valve: two times 16 times 64. After the last none rises.
#[test]
fn all_steps(rt: HostRuntime) -> Result<(), Fail> {
    for (steps, refused) in [(2048, None), (2049, Some((8, 2064)))] {
        let bytes = stepped(rt.alloc(), 16, 0, steps)?;
        assert_eq!(rt; met(&bytes, 1, 64), refused);
    }
    Ok(())
}

// A paper of 8,192 words, of 8,193 and of one step more: 16 cases of 3 lines, and 4 words to a step.
#[test]
fn long_barriers(rt: HostRuntime) -> Result<(), Fail> {
    let mut bytes = stepped(rt.alloc(), 16, 3, 2032)?;
    assert_eq!(rt; met(&bytes, 1, 64), None);
    put(&mut bytes, 0xafe0_0000)?;
    assert_eq!(rt; met(&bytes, 1, 64), Some((3, 8193)));
    put_with(&mut bytes, 0xb000_0000, 2, 0xb000_0000)?;
    assert_eq!(rt; met(&bytes, 1, 64), Some((3, 8196)));
    Ok(())
}

// No bytes are no paper, and a paper of broken words is refused at the number of its whole words.
#[test]
fn broken_barriers(rt: HostRuntime) {
    let paper = [0x60, 0, 0, 0, 0x70, 0, 0, 1, 0];
    for (length, refused) in [
        (0, Some((2, 0))),
        (3, Some((1, 0))),
        (4, None),
        (5, Some((1, 1))),
        (8, None),
        (9, Some((1, 2))),
    ] {
        assert!(rt; length <= 9);
        assert_eq!(rt; met(&paper[0..length], 1, 1), refused);
    }
}

// Two cases, the first of two lines, and two steps.
static PARTS: [u32; 10] = [
    0x6000_0000,
    0x7000_0001,
    0x8000_0003,
    0x7000_0000,
    0x9040_4002,
    0x6000_0000,
    0xa000_2000,
    0xa800_0000,
    0xb100_1002,
    0xb000_0000,
];

// The cases and the steps of a paper are parts of its bytes. Of a third case there is nothing.
#[test]
fn cases_of_a_barrier(rt: HostRuntime) -> Result<(), Fail> {
    let bytes = written(rt.alloc(), &PARTS)?;
    let paper = BarrierPaper::read(
        &bytes,
        Counts {
            tanks: 2,
            valves: 2,
        },
    )?;
    assert!(rt; bytes.len() == 40);
    assert_eq!(rt; (paper.cases(), paper.steps_at()), (2, 6));
    assert_eq!(rt; paper.case(0), &bytes[0..20]);
    assert_eq!(rt; paper.case(1), &bytes[20..24]);
    assert_eq!(rt; paper.case(2).len(), 0);
    assert_eq!(rt; paper.steps(), &bytes[24..40]);
    Ok(())
}

// So are the lines of a case, of which there is no third, and the first step, which has no matches.
#[test]
fn lines_of_a_case(rt: HostRuntime) -> Result<(), Fail> {
    let bytes = written(rt.alloc(), &PARTS)?;
    assert!(rt; bytes.len() == 40);
    assert_eq!(rt; count_kind(&bytes[0..20], Kind::Line), 2);
    assert_eq!(rt; line(&bytes[0..20], 0), &bytes[4..12]);
    assert_eq!(rt; line(&bytes[0..20], 1), &bytes[12..20]);
    assert_eq!(rt; line(&bytes[0..20], 2).len(), 0);
    assert_eq!(rt; part_of(&bytes[24..40], Kind::Step), &bytes[24..28]);
    Ok(())
}

// Of bytes without the word that is sought, what is left over after the words is handed out.
#[test]
fn parts_of_broken_words(rt: HostRuntime) {
    let bytes = [0x60, 0, 0, 0, 0xaa, 0xbb, 0xcc];
    for length in 4..8 {
        let left_over = &bytes[4..length];
        assert_eq!(rt; seek(&bytes[0..length], Kind::Step, 0), left_over);
        assert_eq!(rt; line(&bytes[0..length], 0), left_over);
    }
}

// The weights of a line: a tank without a weight has 0.
#[test]
fn weights_of_a_line(rt: HostRuntime) -> Result<(), Fail> {
    let bytes = written(
        rt.alloc(),
        &[
            0x7000_0001,
            0x8000_2710,
            0x8040_4001,
            0x9040_0005,
            0x9fc0_6710,
        ],
    )?;
    let weights = line_weights(&bytes);
    for (tank, left, right) in [(0, 10_000, 0), (1, -1, 5), (2, 0, 0), (63, 0, -10_000)] {
        assert!(rt; tank < 64);
        assert_eq!(rt;
            (weights.left.each[tank], weights.right.each[tank]),
            (left, right)
        );
    }
    assert!(rt; weights.strict);
    Ok(())
}

// The first word of a paper.
fn word_of(bits: u32) -> Word {
    Word { place: 0, bits }
}

// What the words of a step and of a match say.
#[test]
fn what_steps_say(rt: HostRuntime) {
    let step = StepWord {
        way: Way::Backward,
        from: 15,
        valve: 63,
        to: 14,
    };
    assert_eq!(rt; StepWord::from(word_of(0xafff_c000)), step);
    let first = StepWord {
        way: Way::Forward,
        from: 0,
        valve: 1,
        to: 0,
    };
    assert_eq!(rt; StepWord::from(word_of(0xa002_0000)), first);
    let found = MatchWord {
        line: 15,
        p: 4095,
        q: 1,
    };
    assert_eq!(rt; MatchWord::from(word_of(0xbfff_f001)), found);
}

// Matches that are still due, and one case or line too many, are faults of the paper.
#[test]
fn refusals_of_barriers(rt: HostRuntime) {
    let faults = [
        (PaperFault::Due(9), 5, 9, Part::Paper),
        (PaperFault::Count(16), 9, 16, Part::Paper),
    ];
    assert_eq!(rt; first_misnamed(&faults), None);
}
