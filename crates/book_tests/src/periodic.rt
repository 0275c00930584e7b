// The periodic book.
use crate::answers::{Planned, TWO_LEVELS, at_port, plan_told, told};
use board::faults::Fault;
use board::processors::Processor;
use book::periodic::PeriodicBook;
use cost::energies::Energy;
use plans::states::State;
use std::test::Fail;

// The example board: 40,000 cycles every 1,000 µs at port 1, and 30,000 every 500 µs at port 2.
fn example() -> Result<PeriodicBook, Fault> {
    let mut book = PeriodicBook::new(&TWO_LEVELS, &[])?;
    book.admit(1, 40_000, 0, &[], 1_000)?;
    book.admit(2, 30_000, 0, &[], 500)?;
    Ok(book)
}

// The plan in a list of `room` places and a levels buffer of `bytes` bytes, 12 and 49 at most.
fn planned(book: &PeriodicBook, room: usize, bytes: usize) -> Planned {
    let mut list = [State::<Energy>::blank(); 12];
    let mut levels = [7u8; 49];
    plan_told(book.plan(&mut list[0..room.min(12)], &mut levels[0..bytes.min(49)]))
}

// A trial, likewise.
fn tried(book: &mut PeriodicBook, thousandths: u64, room: usize, bytes: usize) -> Planned {
    let mut list = [State::<Energy>::blank(); 12];
    let mut levels = [7u8; 49];
    plan_told(book.trial(
        thousandths,
        &mut list[0..room.min(12)],
        &mut levels[0..bytes.min(49)],
    ))
}

// One device; at 200 MHz 20,000 cycles take 100 µs, and one cycle more 101.
#[test]
fn admissions(rt: HostRuntime) -> Result<(), Fail> {
    let processor = Processor::new(&TWO_LEVELS, &[5_000])?;
    // port, cycles, access, shares, period, and the number of the refusal
    let cases: [(u64, u64, u64, &[u64], u64, Result<(), u8>); 21] = [
        (0, 1, 0, &[0], 100, Err(22)),
        (1, 1, 0, &[0], 100, Ok(())),
        (48, 1, 0, &[0], 100, Ok(())),
        (49, 1, 0, &[0], 100, Err(22)),
        (u64::MAX, 1, 0, &[0], 100, Err(22)),
        (1, 0, 0, &[0], 100, Err(25)),
        (1, 1_000_000_000, 0, &[0], 10_000_000, Ok(())),
        (1, 1_000_000_001, 0, &[0], 10_000_000, Err(25)),
        (1, 1, 1_000_000, &[1_000], 100, Ok(())),
        (1, 1, 1_000_001, &[1_000], 100, Err(25)),
        (1, 1, 1_000_000, &[1_001], 100, Err(25)),
        (1, 1, 0, &[], 100, Err(25)),
        (1, 1, 0, &[0, 0], 100, Err(25)),
        (1, 1, 0, &[0], 99, Err(26)),
        (1, 1, 0, &[0], 10_000_000, Ok(())),
        (1, 1, 0, &[0], 10_000_001, Err(26)),
        (1, 20_000, 0, &[0], 100, Ok(())),
        (1, 20_001, 0, &[0], 100, Err(27)),
        // where two apply, the first in the order of the numbers
        (49, 0, 0, &[0], 100, Err(22)),
        (1, 0, 0, &[0], 99, Err(25)),
        (1, 1_000_000_000, 0, &[0], 99, Err(26)),
    ];
    for (port, cycles, access, shares, period, expected) in cases {
        let mut book = PeriodicBook::of(&processor);
        assert_eq!(rt;
            told(book.admit(port, cycles, access, shares, period)),
            at_port(expected, port)
        );
    }
    Ok(())
}

// 60,000,000 µs is the longest hyperperiod.
#[test]
fn hyperperiods(rt: HostRuntime) -> Result<(), Fail> {
    // 20,000 cycles at 200 MHz take 100 µs
    for (cycles, period, expected) in [
        (1, 768, Ok(())),
        (1, 700, Err(28)),
        (1_000_000, 700, Err(27)),
    ] {
        let mut book = PeriodicBook::new(&TWO_LEVELS, &[])?;
        assert_eq!(rt; told(book.admit(1, 1, 0, &[], 10_000_000)), Ok(()));
        assert_eq!(rt;
            told(book.admit(2, cycles, 0, &[], period)),
            at_port(expected, 2)
        );
        // without the first task the hyperperiod is short again
        assert_eq!(rt; told(book.retire(1)), Ok(()));
        assert_eq!(rt; told(book.admit(3, 1, 0, &[], 700)), Ok(()));
    }
    Ok(())
}

#[test]
fn ports(rt: HostRuntime) -> Result<(), Fail> {
    let mut book = example()?;
    let before = planned(&book, 12, 48);
    for (port, number) in [(0, 22), (49, 22), (u64::MAX, 22), (3, 24), (48, 24)] {
        assert_eq!(rt; told(book.retire(port)), Err((number, port)));
    }
    // a taken port, also where the figures are out of range
    assert_eq!(rt; told(book.admit(1, 40_000, 0, &[], 1_000)), Err((23, 1)));
    assert_eq!(rt; told(book.admit(2, 0, 0, &[], 99)), Err((23, 2)));
    assert_eq!(rt; planned(&book, 12, 48), before);
    assert_eq!(rt; told(book.retire(2)), Ok(()));
    assert_eq!(rt; told(book.retire(2)), Err((24, 2)));
    assert_eq!(rt; planned(&book, 12, 48), Ok((40_000_000, 400, 2)));
    assert_eq!(rt; told(book.admit(2, 30_000, 0, &[], 500)), Ok(()));
    assert_eq!(rt; planned(&book, 12, 48), before);
    Ok(())
}

// The limit is 499 µs at a capacity of 499 thousandths, and the smallest loads are 500 µs.
#[test]
fn capacities_and_trials(rt: HostRuntime) -> Result<(), Fail> {
    let mut book = example()?;
    assert_eq!(rt; planned(&book, 6, 48), Ok((100_000_000, 1_000, 6)));
    for (thousandths, number) in [(0, 29), (1_001, 29), (u64::MAX, 29)] {
        assert_eq!(rt; told(book.capacity(thousandths)), Err((number, 0)));
        assert_eq!(rt; tried(&mut book, thousandths, 5, 47), Err((29, 0)));
        assert_eq!(rt; planned(&book, 6, 48), Ok((100_000_000, 1_000, 6)));
    }
    // given, none fits, list too short, buffer too short: the book keeps its capacity
    assert_eq!(rt; tried(&mut book, 900, 5, 48), Ok((120_000_000, 800, 5)));
    assert_eq!(rt; tried(&mut book, 1, 0, 48), Err((32, 1)));
    assert_eq!(rt; tried(&mut book, 900, 4, 48), Err((33, 2)));
    assert_eq!(rt; tried(&mut book, 499, 12, 47), Err((31, 0)));
    assert_eq!(rt; planned(&book, 6, 48), Ok((100_000_000, 1_000, 6)));
    for (thousandths, plan) in [
        (1, Err((32, 1))),
        (499, Err((32, 2))),
        (500, Ok((150_000_000, 500, 2))),
    ] {
        assert_eq!(rt; told(book.capacity(thousandths)), Ok(()));
        assert_eq!(rt; planned(&book, 12, 48), plan);
    }
    assert_eq!(rt;
        tried(&mut book, 1_000, 12, 48),
        Ok((100_000_000, 1_000, 6))
    );
    assert_eq!(rt; planned(&book, 12, 48), Ok((150_000_000, 500, 2)));
    Ok(())
}

#[test]
fn lists_and_buffers(rt: HostRuntime) -> Result<(), Fail> {
    let book = example()?;
    for (room, bytes, plan) in [
        (6, 48, Ok((100_000_000, 1_000, 6))),
        (5, 48, Err((33, 2))),
        (1, 48, Err((33, 1))),
        (12, 47, Err((31, 0))),
        (0, 0, Err((31, 0))),
    ] {
        assert_eq!(rt; planned(&book, room, bytes), plan);
    }
    let empty = PeriodicBook::new(&TWO_LEVELS, &[])?;
    assert_eq!(rt; planned(&empty, 0, 48), Ok((0, 0, 0)));
    let mut list = [State::<Energy>::blank(); 12];
    let mut levels = [7u8; 49];
    assert_eq!(rt;
        plan_told(book.plan(&mut list, &mut levels)),
        Ok((100_000_000, 1_000, 6))
    );
    assert_eq!(rt; (levels[0], levels[1], levels[2]), (0, 0, 255));
    assert_eq!(rt;
        (levels[47], levels[48]),
        (255, 7),
        "the byte behind the 48 stays"
    );
    assert_eq!(rt;
        (list[5].load, list[6].load),
        (500, 0),
        "the place behind the states stays"
    );
    Ok(())
}

#[test]
fn processors(rt: HostRuntime) {
    for (levels, expected) in [(0, Err(21)), (1, Ok(())), (2, Ok(()))] {
        let answer = PeriodicBook::new(&TWO_LEVELS[0..levels], &[])
            .map(|_| ())
            .map_err(|fault| fault.number());
        assert_eq!(rt; answer, expected);
    }
}
