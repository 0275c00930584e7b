// The refusals of processors and tasks, by their numbers, and the figures of those that are made.
use board::dues::Due;
use board::levels::Level;
use board::periods::Hyperperiod;
use board::processors::Processor;
use board::tasks::{Task, TaskFigures};
use std::test::Fail;

// Eight levels that rise, and one more.
const NINE: [Level; 9] = [
    Level { mhz: 1, mw: 1 },
    Level { mhz: 2, mw: 2 },
    Level { mhz: 3, mw: 3 },
    Level { mhz: 4, mw: 4 },
    Level { mhz: 5, mw: 5 },
    Level { mhz: 6, mw: 6 },
    Level { mhz: 7, mw: 7 },
    Level { mhz: 8, mw: 8 },
    Level { mhz: 9, mw: 9 },
];

// The processor is made, or refused with a number.
fn processor_told(levels: &[Level], standby: &[u64]) -> Result<(), u8> {
    Processor::new(levels, standby)
        .map(|_| ())
        .map_err(|fault| fault.number())
}

// The task at port 7 is made, or refused with a number and a port.
fn task_told(processor: &Processor, clock: u64, figures: TaskFigures) -> Result<(), (u8, u64)> {
    Task::new(processor, 7, clock, figures)
        .map(|_| ())
        .map_err(|fault| (fault.number(), fault.place()))
}

fn figures(cycles: u64, access: u64, shares: &[u64], due: Due) -> TaskFigures<'_> {
    TaskFigures {
        cycles,
        access,
        shares,
        due,
    }
}

#[test]
fn level_figures(rt: HostRuntime) {
    let cases = [
        (0, 1, Err(21)),
        (1, 0, Err(21)),
        (1, 1, Ok(())),
        (4_000, 60_000, Ok(())),
        (4_001, 60_000, Err(21)),
        (4_000, 60_001, Err(21)),
    ];
    for (mhz, mw, expected) in cases {
        assert_eq!(rt; processor_told(&[Level { mhz, mw }], &[]), expected);
    }
}

#[test]
fn levels_rise(rt: HostRuntime) {
    let lower = Level { mhz: 100, mw: 100 };
    for (mhz, mw, expected) in [
        (101, 101, Ok(())),
        (100, 101, Err(21)),
        (101, 100, Err(21)),
        (99, 200, Err(21)),
    ] {
        assert_eq!(rt; processor_told(&[lower, Level { mhz, mw }], &[]), expected);
    }
}

#[test]
fn counts(rt: HostRuntime) {
    assert_eq!(rt; processor_told(&[], &[]), Err(21));
    assert_eq!(rt; processor_told(&NINE, &[]), Err(21));
    assert_eq!(rt; processor_told(&NINE[0..8], &[0; 8]), Ok(()));
    assert_eq!(rt; processor_told(&NINE[0..8], &[0; 9]), Err(21));
    assert_eq!(rt; processor_told(&NINE[0..1], &[5_000]), Ok(()));
    assert_eq!(rt; processor_told(&NINE[0..1], &[5_001]), Err(21));
}

#[test]
fn task_figures(rt: HostRuntime) -> Result<(), Fail> {
    let processor = Processor::new(&[Level { mhz: 4_000, mw: 1 }], &[0])?;
    let due = Due::Period(10_000_000);
    let cases: [(u64, u64, &[u64], Result<(), (u8, u64)>); 8] = [
        (0, 0, &[0], Err((25, 7))),
        (1, 1_000_000, &[1_000], Ok(())),
        (1_000_000_000, 0, &[0], Ok(())),
        (1_000_000_001, 0, &[0], Err((25, 7))),
        (1, 1_000_001, &[0], Err((25, 7))),
        (1, 0, &[1_001], Err((25, 7))),
        (1, 0, &[], Err((25, 7))),
        (1, 0, &[0, 0], Err((25, 7))),
    ];
    for (cycles, access, shares, expected) in cases {
        assert_eq!(rt;
            task_told(&processor, 0, figures(cycles, access, shares, due)),
            expected
        );
    }
    Ok(())
}

#[test]
fn due_times(rt: HostRuntime) -> Result<(), Fail> {
    let processor = Processor::new(&[Level { mhz: 10, mw: 1 }], &[])?;
    let now = 1_000;
    let cases = [
        (1, Due::Period(99), Err((26, 7))),
        (1, Due::Period(100), Ok(())),
        (1, Due::Period(10_000_000), Ok(())),
        (1, Due::Period(10_000_001), Err((26, 7))),
        (1, Due::Deadline(now), Err((26, 7))),
        (1, Due::Deadline(now + 1), Ok(())),
        (1, Due::Deadline(now + 60_000_000), Ok(())),
        (1, Due::Deadline(now + 60_000_001), Err((26, 7))),
        // 2,000 cycles at 10 MHz are 200 µs, and one cycle more is 201
        (2_000, Due::Period(200), Ok(())),
        (2_001, Due::Period(200), Err((27, 7))),
        (2_000, Due::Deadline(1_200), Ok(())),
        (2_001, Due::Deadline(1_200), Err((27, 7))),
    ];
    for (cycles, due, expected) in cases {
        assert_eq!(rt;
            task_told(&processor, now, figures(cycles, 0, &[], due)),
            expected
        );
    }
    Ok(())
}

// The hyperperiod of two periods, if it has one.
fn hyperperiod_of(one: u64, other: u64) -> Option<u64> {
    let both = Hyperperiod::of_none().with(one)?.with(other)?;
    Some(both.micros())
}

#[test]
fn hyperperiods(rt: HostRuntime) {
    assert_eq!(rt; Hyperperiod::of_none().micros(), 1);
    assert_eq!(rt; hyperperiod_of(1_000, 500), Some(1_000));
    assert_eq!(rt; hyperperiod_of(600, 400), Some(1_200));
    assert_eq!(rt; hyperperiod_of(10_000_000, 6_000_000), Some(30_000_000));
    assert_eq!(rt;
        hyperperiod_of(10_000_000, 768),
        Some(60_000_000),
        "60,000,000 µs is the longest"
    );
    assert_eq!(rt; hyperperiod_of(10_000_000, 700), None);
    assert_eq!(rt; hyperperiod_of(99, 500), None);
}

#[test]
fn offers(rt: HostRuntime) -> Result<(), Fail> {
    let levels = [Level { mhz: 100, mw: 100 }, Level { mhz: 200, mw: 300 }];
    let processor = Processor::new(&levels, &[40, 500])?;
    // 300 µs at level 0, 150 µs at level 1
    let task = Task::new(
        &processor,
        1,
        0,
        figures(30_000, 20, &[1_000, 10], Due::Period(299)),
    )?;
    let alone = Hyperperiod::of_none().with(299).ok_or(())?;
    assert!(rt; processor.offer(&task, &alone, 0).is_none());
    assert!(rt; processor.offer(&task, &alone, 2).is_none());
    assert!(rt; processor.offer(&task, &Hyperperiod::of_none(), 1).is_none());
    let three = alone.with(897).ok_or(())?;
    let m = processor.offer(&task, &three, 1).ok_or(())?.measure;
    assert_eq!(rt; (m.busy, m.draw, m.jobs), (150, 345_000, 3));
    assert_eq!(rt; (m.load, m.energy), (450, 155_310_000));
    Ok(())
}
