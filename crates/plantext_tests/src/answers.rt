// The bytes of an answer of each form, and the buffer behind it.
use board::faults::Fault;
use cost::energies::Energy;
use cost::pairs::Pair;
use cost::peaks::Peak;
use plans::figures::Figures;
use plantext::answers::{Outcome, write_answer};
use plantext::faults::JobFault;
use plantext::kinds::JobKind;
use std::process::Abort;

// what the buffer holds before
const FILL: u8 = b'#';

// no port has a task
const BARE: [u8; 48] = [255; 48];

// The text stands at the start of the buffer, and nothing behind it is written.
fn check_answer<K: JobKind>(rt: &impl Abort, outcome: &Outcome<K>, levels: &[u8; 48], text: &[u8]) {
    let mut buffer = [FILL; 256];
    let length = write_answer(outcome, levels, &mut buffer);
    assert!(rt; length == text.len() && length < 256);
    assert_eq!(rt; &buffer[0..length], text);
    assert!(rt; buffer[length..].iter().all(|byte| *byte == FILL));
}

#[test]
fn plan_of_both(rt: HostRuntime) {
    let mut levels = BARE;
    levels[0] = 0;
    levels[1] = 8;
    levels[2] = 3;
    levels[47] = 7;
    let figures = Figures {
        cost: Pair {
            first: Energy {
                picojoules: 51_200_000,
            },
            second: Peak { microwatts: 900 },
        },
        load: 640,
        limit: 1000,
        states: 17,
    };
    check_answer(
        &rt,
        &Ok(Some(figures)),
        &levels,
        b"answer=0\ncost=51200000,900\nload=640\nlimit=1000\nstates=17\nlevels=0-3--------------------------------------------7\n",
    );
}

#[test]
fn plan_of_nothing(rt: HostRuntime) {
    let figures = Figures {
        cost: Peak { microwatts: 0 },
        load: 0,
        limit: 0,
        states: 0,
    };
    check_answer(
        &rt,
        &Ok(Some(figures)),
        &BARE,
        b"answer=0\ncost=0\nload=0\nlimit=0\nstates=0\nlevels=------------------------------------------------\n",
    );
}

#[test]
fn done_and_refusals(rt: HostRuntime) {
    check_answer::<Peak>(&rt, &Ok(None), &BARE, b"answer=0\n");
    check_answer::<Peak>(
        &rt,
        &Err(JobFault::LongText),
        &BARE,
        b"answer=11\nline=0\nport=0\n",
    );
    check_answer::<Peak>(
        &rt,
        &Err(JobFault::WrongKey { line: 12 }),
        &BARE,
        b"answer=14\nline=12\nport=0\n",
    );
    check_answer::<Peak>(
        &rt,
        &Err(JobFault::Refused {
            fault: Fault::TooSlow(48),
            line: 31,
        }),
        &BARE,
        b"answer=27\nline=31\nport=48\n",
    );
}

#[test]
fn buffer_of_255_bytes_stays(rt: HostRuntime) {
    let mut buffer = [FILL; 255];
    let done: Outcome<Peak> = Ok(None);
    assert_eq!(rt; write_answer(&done, &BARE, &mut buffer), 0);
    assert!(rt; buffer == [FILL; 255]);
}
