// What plants answer at their limits and beyond their counts.
use crate::sheets::written;
use paper::PaperPlant;
use plant::limits::MOST_VALVES;
use plant::{Counts, Narrowed, Plant, RingMain, Turned};
use std::test::Fail;

// Two tanks and three valves. Valve 0 takes 1 from tank 0 and gives 1,023 to tank 1; valve 2 takes 1,023 from tank 1 and gives 1 to tank 0.
static SMALL: [u32; 5] = [
    0x1000_0103,
    0x2000_0001,
    0x2081_03ff,
    0x3001_03ff,
    0x3080_0001,
];

// A valve, a tank, and the valve's intake and outlet there. Valve 1 and tank 65 would have the number of valve 2 and tank 1.
static WEIGHTS: [(usize, usize, u16, u16); 12] = [
    (0, 0, 1, 0),
    (0, 1, 0, 1023),
    (1, 0, 0, 0),
    (1, 1, 0, 0),
    (2, 0, 0, 1),
    (2, 1, 1023, 0),
    (3, 0, 0, 0),
    (0, 2, 0, 0),
    (1, 65, 0, 0),
    (0, 64, 0, 0),
    (64, 0, 0, 0),
    (18446744073709551615, 18446744073709551615, 0, 0),
];

// A ring has 2 to 64 tanks; any other number makes the empty plant.
#[test]
fn ring_sizes(rt: HostRuntime) {
    for (asked, made) in [(0, 0), (1, 0), (2, 2), (63, 63), (64, 64), (65, 0)] {
        let ring = RingMain::new(asked);
        let counts = Counts {
            tanks: made,
            valves: made,
        };
        assert_eq!(rt; ring.counts(), counts);
        assert_eq!(rt; ring.is_open(0), made > 0);
        assert!(rt; !ring.is_open(made));
        assert_eq!(rt; ring.intake(made, made), 0);
    }
}

// The last valve of a ring gives to tank 0.
#[test]
fn ring_of_64(rt: HostRuntime) {
    let ring = RingMain::new(64);
    let turned = Turned { below: &ring };
    for (valve, tank, intake, outlet) in [
        (0, 0, 1, 0),
        (0, 1, 0, 1),
        (63, 63, 1, 0),
        (63, 0, 0, 1),
        (63, 64, 0, 0),
        (64, 0, 0, 0),
        (64, 1, 0, 0),
    ] {
        assert_eq!(rt; ring.intake(valve, tank), intake);
        assert_eq!(rt; ring.outlet(valve, tank), outlet);
        assert_eq!(rt; turned.intake(valve, tank), outlet);
        assert_eq!(rt; turned.outlet(valve, tank), intake);
    }
}

// A paper plant, and the same turned, narrowed and behind a reference, weighs as its paper says, and 0 beyond its counts.
#[test]
fn paper_weights(rt: HostRuntime) -> Result<(), Fail> {
    let bytes = written(rt.alloc(), &SMALL)?;
    let plant = PaperPlant::new(&bytes);
    let turned = Turned { below: &plant };
    let narrowed = Narrowed {
        below: &plant,
        shut: [true; MOST_VALVES],
    };
    for (valve, tank, intake, outlet) in WEIGHTS {
        assert_eq!(rt; plant.intake(valve, tank), intake);
        assert_eq!(rt; plant.outlet(valve, tank), outlet);
        assert_eq!(rt; turned.intake(valve, tank), outlet);
        assert_eq!(rt; narrowed.outlet(valve, tank), outlet);
    }
    Ok(())
}

// The valves of a paper are open up to its count, but for those that a narrowed plant shuts.
#[test]
fn open_valves(rt: HostRuntime) -> Result<(), Fail> {
    let bytes = written(rt.alloc(), &SMALL)?;
    let plant = PaperPlant::new(&bytes);
    let mut shut = [false; MOST_VALVES];
    shut[1] = true;
    shut[5] = true;
    let narrowed = Narrowed {
        below: &plant,
        shut,
    };
    for (valve, open, left_open) in [
        (0, true, true),
        (1, true, false),
        (2, true, true),
        (3, false, false),
        (5, false, false),
        (63, false, false),
        (64, false, false),
    ] {
        assert_eq!(rt; plant.is_open(valve), open);
        assert_eq!(rt; narrowed.is_open(valve), left_open);
    }
    assert_eq!(rt; narrowed.counts(), plant.counts());
    Ok(())
}

// A bad paper makes the empty plant, however much of it is good.
#[test]
fn bad_papers_make_the_empty_plant(rt: HostRuntime) -> Result<(), Fail> {
    let bad: [&[u32]; 4] = [
        &[],
        &[0x2000_0001],
        &[0x1000_0081, 0x2000_0001, 0x2000_0001],
        &[0x1000_0081, 0x2000_0000],
    ];
    for words in bad {
        let bytes = written(rt.alloc(), words)?;
        let plant = PaperPlant::new(&bytes);
        let counts = Counts {
            tanks: 0,
            valves: 0,
        };
        assert_eq!(rt; plant.counts(), counts);
        assert!(rt; !plant.is_open(0));
        assert_eq!(rt; plant.intake(0, 0), 0);
        assert_eq!(rt; plant.outlet(0, 0), 0);
    }
    Ok(())
}
