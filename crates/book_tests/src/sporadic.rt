// The sporadic book.
use crate::answers::{Planned, TWO_LEVELS, at_port, plan_told, told};
use board::faults::Fault;
use board::processors::Processor;
use book::sporadic::SporadicBook;
use cost::energies::Energy;
use plans::states::State;
use std::test::Fail;

// 40,000 cycles at port 1 and 30,000 at port 2, with these deadlines.
fn two_tasks(first: u64, second: u64) -> Result<SporadicBook, Fault> {
    let mut book = SporadicBook::new(&TWO_LEVELS, &[])?;
    book.admit(1, 40_000, 0, &[], first)?;
    book.admit(2, 30_000, 0, &[], second)?;
    Ok(book)
}

// The plan in a list of `room` places and a levels buffer of `bytes` bytes, 12 and 49 at most.
fn planned(book: &SporadicBook, room: usize, bytes: usize) -> Planned {
    let mut list = [State::<Energy>::blank(); 12];
    let mut levels = [7u8; 49];
    plan_told(book.plan(&mut list[0..room.min(12)], &mut levels[0..bytes.min(49)]))
}

// At clock 1,000, with one device. At 200 MHz 40,000 cycles take 200 µs.
#[test]
fn admissions(rt: HostRuntime) -> Result<(), Fail> {
    let processor = Processor::new(&TWO_LEVELS, &[5_000])?;
    // port, cycles, access, shares, deadline, and the number of the refusal
    let cases: [(u64, u64, u64, &[u64], u64, Result<(), u8>); 23] = [
        (0, 1, 0, &[0], 1_001, Err(22)),
        (1, 1, 0, &[0], 1_001, Ok(())),
        (48, 1, 0, &[0], 1_001, Ok(())),
        (49, 1, 0, &[0], 1_001, Err(22)),
        (u64::MAX, 1, 0, &[0], 1_001, Err(22)),
        (1, 0, 0, &[0], 1_001, Err(25)),
        (1, 1_000_000_000, 0, &[0], 10_000_000, Ok(())),
        (1, 1_000_000_001, 0, &[0], 10_000_000, Err(25)),
        (1, 1, 1_000_000, &[1_000], 1_001, Ok(())),
        (1, 1, 1_000_001, &[1_000], 1_001, Err(25)),
        (1, 1, 1_000_000, &[1_001], 1_001, Err(25)),
        (1, 1, 0, &[], 1_001, Err(25)),
        (1, 1, 0, &[0, 0], 1_001, Err(25)),
        (1, 1, 0, &[0], 0, Err(26)),
        (1, 1, 0, &[0], 1_000, Err(26)),
        (1, 1, 0, &[0], 60_001_000, Ok(())),
        (1, 1, 0, &[0], 60_001_001, Err(26)),
        (1, 40_000, 0, &[0], 1_200, Ok(())),
        (1, 40_000, 0, &[0], 1_199, Err(27)),
        (1, 40_001, 0, &[0], 1_200, Err(27)),
        // where two apply, the first in the order of the numbers
        (0, 0, 0, &[0], 1_001, Err(22)),
        (1, 0, 0, &[0], 1_000, Err(25)),
        (1, 1_000_000_000, 0, &[0], 1_000, Err(26)),
    ];
    for (port, cycles, access, shares, deadline, expected) in cases {
        let mut book = SporadicBook::of(&processor);
        assert_eq!(rt; told(book.clock(1_000)), Ok(()));
        assert_eq!(rt;
            told(book.admit(port, cycles, access, shares, deadline)),
            at_port(expected, port)
        );
    }
    Ok(())
}

#[test]
fn ports_and_serving(rt: HostRuntime) -> Result<(), Fail> {
    let mut book = two_tasks(400, 550)?;
    let before = planned(&book, 12, 48);
    for (port, number) in [(0, 22), (49, 22), (u64::MAX, 22), (3, 24), (48, 24)] {
        assert_eq!(rt; told(book.retire(port)), Err((number, port)));
        assert_eq!(rt; told(book.serve(port, 0)), Err((number, port)));
    }
    assert_eq!(rt; told(book.admit(1, 0, 0, &[], 0)), Err((23, 1)));
    assert_eq!(rt; told(book.serve(1, 0)), Err((25, 1)));
    assert_eq!(rt; told(book.serve(1, 40_001)), Err((25, 1)));
    assert_eq!(rt; told(book.serve(1, u64::MAX)), Err((25, 1)));
    assert_eq!(rt; planned(&book, 12, 48), before);
    // 10,000 cycles less take 100 µs less at level 0
    assert_eq!(rt; told(book.serve(1, 10_000)), Ok(()));
    assert_eq!(rt; planned(&book, 12, 48), Ok((75_000_000, 450, 4)));
    assert_eq!(rt; told(book.serve(1, 30_001)), Err((25, 1)));
    assert_eq!(rt; told(book.serve(1, 29_999)), Ok(()));
    assert_eq!(rt; told(book.serve(1, 1)), Ok(()));
    assert_eq!(rt; told(book.serve(1, 1)), Err((24, 1)), "the task is off");
    assert_eq!(rt; told(book.retire(1)), Err((24, 1)));
    assert_eq!(rt; told(book.retire(2)), Ok(()));
    assert_eq!(rt; planned(&book, 0, 48), Ok((0, 0, 0)));
    Ok(())
}

#[test]
fn clocks(rt: HostRuntime) -> Result<(), Fail> {
    let mut book = two_tasks(400, 550)?;
    for (time, answer, plan) in [
        (0, Ok(()), Ok((85_000_000, 550, 5))),
        (1, Ok(()), Ok((90_000_000, 500, 3))),
        (0, Err(29), Ok((90_000_000, 500, 3))),
        (200, Ok(()), Ok((105_000_000, 350, 2))),
        (199, Err(29), Ok((105_000_000, 350, 2))),
        (201, Ok(()), Err((32, 1))),
        (1_000_000_000_000, Ok(()), Err((32, 1))),
        (1_000_000_000_001, Err(29), Err((32, 1))),
        (u64::MAX, Err(29), Err((32, 1))),
        (1_000_000_000_000, Ok(()), Err((32, 1))),
    ] {
        assert_eq!(rt; told(book.clock(time)), at_port(answer, 0));
        assert_eq!(rt; planned(&book, 12, 48), plan);
    }
    assert_eq!(rt; told(book.admit(3, 1, 0, &[], 1_000_060_000_000)), Ok(()));
    Ok(())
}

#[test]
fn lists_and_buffers(rt: HostRuntime) -> Result<(), Fail> {
    let book = two_tasks(400, 550)?;
    for (room, bytes, plan) in [
        (5, 48, Ok((85_000_000, 550, 5))),
        (4, 48, Err((33, 2))),
        (1, 48, Err((33, 1))),
        (5, 47, Err((31, 0))),
    ] {
        assert_eq!(rt; planned(&book, room, bytes), plan);
    }
    Ok(())
}

// Levels 0 and 0 have a load of 700 µs, which is within the last limit, yet port 1 would be late: it takes
// 400 µs at level 0, and has 399.
#[test]
fn each_limit_binds(rt: HostRuntime) -> Result<(), Fail> {
    let book = two_tasks(399, 700)?;
    let mut list = [State::<Energy>::blank(); 12];
    let mut levels = [7u8; 49];
    assert_eq!(rt;
        plan_told(book.plan(&mut list, &mut levels)),
        Ok((90_000_000, 500, 3))
    );
    assert_eq!(rt; (levels[0], levels[1], levels[2]), (1, 0, 255));
    assert_eq!(rt; (levels[47], levels[48]), (255, 7));
    // the order of the rows is that of the deadlines, whatever the ports
    let turned = two_tasks(700, 399)?;
    assert_eq!(rt; planned(&turned, 12, 48), Ok((70_000_000, 700, 6)));
    Ok(())
}
