// What lines and their matches come to: amounts, sides at equality, flow numbers and marks.
use crate::sheets::written;
use barrier_paper::weights::line_weights;
use lines::{Amounts, Factors, LineWeights, Match, Pair, ValveWeights, Way};
use paper::PaperPlant;
use std::alloc::{AllocError, Global};
use std::test::Fail;

// The line of such words.
fn line_of(heap: Global, words: &[u32]) -> Result<LineWeights, AllocError> {
    let bytes = written(heap, words)?;
    Ok(line_weights(&bytes))
}

// Above 1,000,000 an amount counts as that. A tank that is not listed is empty, and a 65th amount has no tank.
#[test]
fn amounts_of_fillings(rt: HostRuntime) {
    let few = Amounts::of_filling(&[999_999, 1_000_000, 1_000_001, 4_294_967_295]);
    let many = Amounts::of_filling(&[7; 65]);
    for (tank, amount) in [
        (0, 999_999),
        (1, 1_000_000),
        (2, 1_000_000),
        (3, 1_000_000),
        (4, 0),
        (63, 0),
    ] {
        assert!(rt; tank < 64);
        let (of_few, of_many) = (few.each[tank], many.each[tank]);
        assert_eq!(rt; (of_few, of_many), (amount, 7));
    }
}

// The line m(0) - 2 m(1) against m'(0) - m'(1), of so many tanks: strict or not, the pair, and whether it holds.
#[test]
fn lines_at_equality(rt: HostRuntime) -> Result<(), Fail> {
    for (head, tanks, first, second, held) in [
        // 5 and 5, 5 and 6, 6 and 5
        (0x7000_0000, 2, [5, 0], [5, 0], true),
        (0x7000_0001, 2, [5, 0], [5, 0], false),
        (0x7000_0001, 2, [5, 0], [6, 0], true),
        (0x7000_0000, 2, [6, 0], [5, 0], false),
        // 5 - 2 * 3 and 0 - 1, 5 - 2 * 3 and 0 - 2
        (0x7000_0000, 2, [5, 3], [0, 1], true),
        (0x7000_0001, 2, [5, 3], [0, 1], false),
        (0x7000_0000, 2, [5, 3], [0, 2], false),
        // of tank 0 alone 5 and 6, and of no tank 0 and 0
        (0x7000_0001, 1, [5, 0], [6, 9], true),
        (0x7000_0001, 2, [5, 0], [6, 9], false),
        (0x7000_0000, 0, [6, 0], [5, 0], true),
        (0x7000_0001, 0, [5, 0], [6, 0], false),
        // 1,000,001 counts as 1,000,000
        (0x7000_0001, 2, [1_000_000, 0], [1_000_001, 0], false),
        (0x7000_0000, 2, [1_000_001, 0], [1_000_000, 0], true),
    ] {
        let words = [head, 0x8000_0001, 0x8040_4002, 0x9000_0001, 0x9040_4001];
        let line = line_of(rt.alloc(), &words)?;
        let pair = Pair {
            source: &Amounts::of_filling(&first),
            target: &Amounts::of_filling(&second),
            tanks,
        };
        assert_eq!(rt; line.holds(&pair), held);
    }
    Ok(())
}

// A plant of one tank and one valve, two lines, a direction and two factors; the flow number, and whether the match is good.
#[derive(Clone, Copy)]
struct Matched {
    plant: &'static [u32],
    from: &'static [u32],
    to: &'static [u32],
    way: Way,
    p: u16,
    q: u16,
    flow: i64,
    good: bool,
}

static MATCHES: [Matched; 23] = [
    // the first mark alone, 1 * 2 - 1 * 1; without it, 1 * 1 - 1 * 1
    Matched {
        plant: &[0x1000_0081, 0x2000_0001, 0x3000_0002],
        from: &[0x7000_0000, 0x8000_0001, 0x9000_0001],
        to: &[0x7000_0001, 0x8000_0001, 0x9000_0001],
        way: Way::Forward,
        p: 1,
        q: 1,
        flow: 1,
        good: true,
    },
    Matched {
        plant: &[0x1000_0081, 0x2000_0001, 0x3000_0001],
        from: &[0x7000_0000, 0x8000_0001, 0x9000_0001],
        to: &[0x7000_0001, 0x8000_0001, 0x9000_0001],
        way: Way::Forward,
        p: 1,
        q: 1,
        flow: 0,
        good: false,
    },
    // the second mark alone, and the third alone
    Matched {
        plant: &[0x1000_0081, 0x2000_0001, 0x3000_0001],
        from: &[0x7000_0001, 0x8000_0001, 0x9000_0001],
        to: &[0x7000_0001, 0x8000_0001, 0x9000_0001],
        way: Way::Forward,
        p: 1,
        q: 1,
        flow: 0,
        good: true,
    },
    Matched {
        plant: &[0x1000_0081, 0x2000_0001, 0x3000_0001],
        from: &[0x7000_0000, 0x8000_0001, 0x9000_0001],
        to: &[0x7000_0000, 0x8000_0001, 0x9000_0001],
        way: Way::Forward,
        p: 1,
        q: 1,
        flow: 0,
        good: true,
    },
    // the line left is strict, but p is 0: no mark, unless the line reached is not strict
    Matched {
        plant: &[0x1000_0081, 0x2000_0001],
        from: &[0x7000_0001, 0x8000_0001, 0x9000_0001],
        to: &[0x7000_0001, 0x8000_4001, 0x9000_0001],
        way: Way::Forward,
        p: 0,
        q: 1,
        flow: 0,
        good: false,
    },
    Matched {
        plant: &[0x1000_0081, 0x2000_0001],
        from: &[0x7000_0001, 0x8000_0001, 0x9000_0001],
        to: &[0x7000_0000, 0x8000_4001, 0x9000_0001],
        way: Way::Forward,
        p: 0,
        q: 1,
        flow: 0,
        good: true,
    },
    // the line reached is not strict, but q is 0: no mark, unless the line left is strict or the flow number is 0 * 1 * 0 - 1 * (-1) * 1
    Matched {
        plant: &[0x1000_0081, 0x3000_0001],
        from: &[0x7000_0000, 0x8000_0001, 0x9000_4001],
        to: &[0x7000_0000, 0x8000_0001, 0x9000_0001],
        way: Way::Forward,
        p: 1,
        q: 0,
        flow: 0,
        good: false,
    },
    Matched {
        plant: &[0x1000_0081, 0x3000_0001],
        from: &[0x7000_0001, 0x8000_0001, 0x9000_4001],
        to: &[0x7000_0000, 0x8000_0001, 0x9000_0001],
        way: Way::Forward,
        p: 1,
        q: 0,
        flow: 0,
        good: true,
    },
    Matched {
        plant: &[0x1000_0081, 0x2000_0001],
        from: &[0x7000_0000, 0x8000_0001, 0x9000_4001],
        to: &[0x7000_0000, 0x8000_0001, 0x9000_0001],
        way: Way::Forward,
        p: 1,
        q: 0,
        flow: 1,
        good: true,
    },
    // p = q = 0 is never good
    Matched {
        plant: &[0x1000_0081, 0x2000_0001, 0x3000_0002],
        from: &[0x7000_0001, 0x8000_0001, 0x9000_0001],
        to: &[0x7000_0000, 0x8000_0001, 0x9000_0001],
        way: Way::Forward,
        p: 0,
        q: 0,
        flow: 0,
        good: false,
    },
    // a flow number below 0, 1 * 1 - 1 * 2, whatever the marks
    Matched {
        plant: &[0x1000_0081, 0x2000_0002, 0x3000_0001],
        from: &[0x7000_0001, 0x8000_0001, 0x9000_0001],
        to: &[0x7000_0000, 0x8000_0001, 0x9000_0001],
        way: Way::Forward,
        p: 1,
        q: 1,
        flow: -1,
        good: false,
    },
    // a tank's number below 0: on the left 1 * 1 - 2 * 1, on the right 1 * 1 - 2 * 1
    Matched {
        plant: &[0x1000_0081, 0x3000_0001],
        from: &[0x7000_0000, 0x8000_0001],
        to: &[0x7000_0000, 0x8000_0001],
        way: Way::Backward,
        p: 1,
        q: 2,
        flow: 1,
        good: false,
    },
    Matched {
        plant: &[0x1000_0081, 0x3000_0001],
        from: &[0x7000_0000, 0x9000_0001],
        to: &[0x7000_0000, 0x9000_0001],
        way: Way::Forward,
        p: 2,
        q: 1,
        flow: 1,
        good: false,
    },
    // backward by left weights, p with what is given and q with what is taken: 3 * 1 - 1 * 3 and 2 * 1 - 1 * 3; forward these do not count
    Matched {
        plant: &[0x1000_0081, 0x2000_0003, 0x3000_0001],
        from: &[0x7000_0000, 0x8000_0001],
        to: &[0x7000_0000, 0x8000_0001],
        way: Way::Backward,
        p: 3,
        q: 1,
        flow: 0,
        good: true,
    },
    Matched {
        plant: &[0x1000_0081, 0x2000_0003, 0x3000_0001],
        from: &[0x7000_0000, 0x8000_0001],
        to: &[0x7000_0000, 0x8000_0001],
        way: Way::Backward,
        p: 2,
        q: 1,
        flow: -1,
        good: false,
    },
    Matched {
        plant: &[0x1000_0081, 0x2000_0003, 0x3000_0001],
        from: &[0x7000_0000, 0x8000_0001],
        to: &[0x7000_0000, 0x8000_0001],
        way: Way::Forward,
        p: 2,
        q: 1,
        flow: 0,
        good: true,
    },
    // forward by right weights, q with what is given and p with what is taken: 3 * 1 - 1 * 3 and 2 * 1 - 1 * 3; backward these do not count
    Matched {
        plant: &[0x1000_0081, 0x2000_0003, 0x3000_0001],
        from: &[0x7000_0000, 0x9000_0001],
        to: &[0x7000_0000, 0x9000_0001],
        way: Way::Forward,
        p: 1,
        q: 3,
        flow: 0,
        good: true,
    },
    Matched {
        plant: &[0x1000_0081, 0x2000_0003, 0x3000_0001],
        from: &[0x7000_0000, 0x9000_0001],
        to: &[0x7000_0000, 0x9000_0001],
        way: Way::Forward,
        p: 1,
        q: 2,
        flow: -1,
        good: false,
    },
    Matched {
        plant: &[0x1000_0081, 0x2000_0003, 0x3000_0001],
        from: &[0x7000_0000, 0x9000_0001],
        to: &[0x7000_0000, 0x9000_0001],
        way: Way::Backward,
        p: 1,
        q: 2,
        flow: 0,
        good: true,
    },
    // the largest numbers: 4,095 * 10,000 * 1,023
    Matched {
        plant: &[0x1000_0081, 0x3000_03ff],
        from: &[0x7000_0000, 0x8000_2710, 0x9000_2710],
        to: &[0x7000_0000, 0x8000_2710, 0x9000_2710],
        way: Way::Forward,
        p: 4095,
        q: 4095,
        flow: 41_891_850_000,
        good: true,
    },
    Matched {
        plant: &[0x1000_0081, 0x3000_03ff],
        from: &[0x7000_0000, 0x8000_2710, 0x9000_2710],
        to: &[0x7000_0000, 0x8000_2710, 0x9000_2710],
        way: Way::Backward,
        p: 4095,
        q: 4095,
        flow: 41_891_850_000,
        good: true,
    },
    Matched {
        plant: &[0x1000_0081, 0x2000_03ff],
        from: &[0x7000_0000, 0x8000_2710, 0x9000_2710],
        to: &[0x7000_0000, 0x8000_2710, 0x9000_2710],
        way: Way::Forward,
        p: 4095,
        q: 4095,
        flow: -41_891_850_000,
        good: false,
    },
    Matched {
        plant: &[0x1000_0081, 0x2000_03ff],
        from: &[0x7000_0000, 0x8000_6710, 0x9000_6710],
        to: &[0x7000_0000, 0x8000_6710, 0x9000_6710],
        way: Way::Backward,
        p: 4095,
        q: 4095,
        flow: 41_891_850_000,
        good: true,
    },
];

#[test]
fn flows_and_marks(rt: HostRuntime) -> Result<(), Fail> {
    for matched in MATCHES {
        let bytes = written(rt.alloc(), matched.plant)?;
        let plant = PaperPlant::new(&bytes);
        let valve = ValveWeights::of_plant(&plant, 0);
        let between = Match {
            from: &line_of(rt.alloc(), matched.from)?,
            to: &line_of(rt.alloc(), matched.to)?,
            factors: Factors {
                p: matched.p,
                q: matched.q,
            },
        };
        assert_eq!(rt; between.flow_number(&valve, matched.way), matched.flow);
        assert_eq!(rt; between.is_good(&valve, matched.way), matched.good);
    }
    Ok(())
}
