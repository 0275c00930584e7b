// The faults of job text: number, line and port.
use crate::takes::{Came, first_came, three_came};
use std::test::Fail;

// A header of five lines, without devices.
macro_rules! job {
    ($($rest:literal),*) => {
        concat!("kind=e\nrule=p\nlevels=1\nmhz=100\nmw=100\ndevices=0\n", $($rest),*).as_bytes()
    };
}

// A header of a sporadic book with one device.
macro_rules! sporadic_job {
    ($($rest:literal),*) => {
        concat!("kind=p\nrule=s\nlevels=1\nmhz=100\nmw=100\ndevices=1\nstandby=5\n", $($rest),*).as_bytes()
    };
}

fn refused(number: u8, line: u64, port: u64) -> Came {
    Some(Err((number, line, port)))
}

#[test]
fn headers_that_end(rt: HostRuntime) {
    let cases: [(&[u8], u64); 7] = [
        (b"", 1),
        (b"kind=e", 1),
        (b"kind=e\n", 2),
        (b"kind=e\nrule=p\nlevels=2\nmhz=1\nmw=1\nmhz=2", 6),
        (b"kind=e\nrule=p\nlevels=2\nmhz=1\nmw=1\n", 6),
        (b"kind=e\nrule=p\nlevels=1\nmhz=1\nmw=1\ndevices=0", 6),
        (b"kind=e\nrule=p\nlevels=1\nmhz=1\nmw=1\ndevices=1\n", 7),
    ];
    for (text, line) in cases {
        assert_eq!(rt; first_came(text), refused(13, line, 0));
    }
}

#[test]
fn wrong_keys(rt: HostRuntime) {
    let cases: [(&[u8], u64); 7] = [
        (b"\n", 1),
        (b"kine=e\n", 1),
        (b"kind e\n", 1),
        (b"Kind=e\n", 1),
        (b" kind=e\n", 1),
        (b"kind=e\nlevels=1\n", 2),
        (b"kind=e\nrule=p\nlevels=1\nmw=1\n", 4),
    ];
    for (text, line) in cases {
        assert_eq!(rt; first_came(text), refused(14, line, 0));
    }
    // a line without its end is looked at first
    assert_eq!(rt; first_came(b"kine=e"), refused(13, 1, 0));
}

#[test]
fn bad_values_of_headers(rt: HostRuntime) {
    let cases: [(&[u8], u64); 9] = [
        (b"kind=\n", 1),
        (b"kind=q\n", 1),
        (b"kind=ee\n", 1),
        (b"kind=e\nrule=t\n", 2),
        (b"kind=e\nrule=p\nlevels=0\n", 3),
        (b"kind=e\nrule=p\nlevels=9\n", 3),
        (b"kind=e\nrule=p\nlevels=1\nmhz=01\n", 4),
        (b"kind=e\nrule=p\nlevels=1\nmhz=1\r\n", 4),
        (b"kind=e\nrule=p\nlevels=1\nmhz=1\nmw=1\ndevices=9\n", 6),
    ];
    for (text, line) in cases {
        assert_eq!(rt; first_came(text), refused(15, line, 0));
    }
}

#[test]
fn numbers(rt: HostRuntime) -> Result<(), Fail> {
    let cases: [(&[u8], Came); 8] = [
        (job!("call=retire\nport=\n"), refused(15, 8, 0)),
        (job!("call=retire\nport=-1\n"), refused(15, 8, 0)),
        (job!("call=retire\nport=1 \n"), refused(15, 8, 0)),
        (job!("call=retire\nport=00\n"), refused(15, 8, 0)),
        (job!("call=retire\nport=0\n"), refused(22, 7, 0)),
        (job!("call=retire\nport=10\n"), refused(24, 7, 10)),
        (
            job!("call=retire\nport=999999999999999\n"),
            refused(22, 7, 999_999_999_999_999),
        ),
        (
            job!("call=retire\nport=1000000000000000\n"),
            refused(15, 8, 0),
        ),
    ];
    for (text, expected) in cases {
        assert_eq!(rt; first_came(text), expected);
    }
    Ok(())
}

#[test]
fn calls(rt: HostRuntime) -> Result<(), Fail> {
    let cases: [(&[u8], Came); 9] = [
        (job!("call=\n"), refused(15, 7, 0)),
        (job!("call=plans\n"), refused(15, 7, 0)),
        (job!("call=serve\nport=1\ncycles=1\n"), refused(15, 7, 0)),
        (job!("call=clock\ntime=1\n"), refused(15, 7, 0)),
        (job!("call=capacity\n"), refused(13, 8, 0)),
        (job!("call=capacity\ncapacity=1001\n"), refused(29, 7, 0)),
        (job!("call=capacity\ncapacity=1000\n"), Some(Ok(()))),
        (sporadic_job!("call=trial\ncapacity=1\n"), refused(15, 8, 0)),
        (
            sporadic_job!("call=admit\nport=1\ncycles=1\naccess=0\ndeadline=9\n"),
            refused(13, 13, 0),
        ),
    ];
    for (text, expected) in cases {
        assert_eq!(rt; first_came(text), expected);
    }
    Ok(())
}

#[test]
fn processors(rt: HostRuntime) {
    // 21 has the header's last line
    assert_eq!(rt;
        first_came(b"kind=e\nrule=p\nlevels=1\nmhz=4001\nmw=1\ndevices=0\n"),
        refused(21, 6, 0)
    );
    assert_eq!(rt;
        first_came(b"kind=e\nrule=p\nlevels=1\nmhz=1\nmw=1\ndevices=1\nstandby=5001\ncall=plan\n"),
        refused(21, 7, 0)
    );
}

// What three calls come to, with long enough answer buffers.
fn came(text: &[u8]) -> [Came; 3] {
    let mut buffer = [0; 256];
    three_came(text, [256; 3], &mut buffer)
}

#[test]
fn reading_ends_or_goes_on(rt: HostRuntime) -> Result<(), Fail> {
    let none: Came = None;
    let done: Came = Some(Ok(()));
    // after a fault of the text nothing more is read, after one of the book the next call is
    let cases: [(&[u8], [Came; 3]); 5] = [
        (
            job!("call=plan\ncall=x\ncall=plan\n"),
            [done, refused(15, 8, 0), none],
        ),
        (b"kind=x\ncall=plan\n", [refused(15, 1, 0), none, none]),
        (
            job!("call=retire\nport=3\ncall=plan\n"),
            [refused(24, 7, 3), done, none],
        ),
        (
            job!("call=plan\ncall=retire\nport=3\n"),
            [done, refused(24, 8, 3), none],
        ),
        (job!(""), [none, none, none]),
    ];
    for (text, expected) in cases {
        assert_eq!(rt; came(text), expected);
    }
    Ok(())
}

#[test]
fn lengths_of_texts(rt: HostRuntime) {
    assert_eq!(rt; first_came(&[b'\n'; 16_384]), refused(14, 1, 0));
    assert_eq!(rt; first_came(&[b'\n'; 16_385]), refused(11, 0, 0));
}

#[test]
fn answer_buffers(rt: HostRuntime) -> Result<(), Fail> {
    let none: Came = None;
    let short = refused(12, 0, 0);
    let mut buffer = [7; 256];
    // 12 comes before the faults of lines, and behind 11; the buffer stays as found, and reading ends
    assert_eq!(rt;
        three_came(job!("call=plan\n"), [255, 256, 256], &mut buffer),
        [short, none, none]
    );
    assert_eq!(rt;
        three_came(b"kind=x\n", [0, 256, 256], &mut buffer),
        [short, none, none]
    );
    assert_eq!(rt;
        three_came(&[b'\n'; 16_385], [255, 256, 256], &mut buffer),
        [refused(11, 0, 0), none, none]
    );
    // that none is left comes before 12
    assert_eq!(rt; three_came(job!(""), [0, 255, 256], &mut buffer), [none; 3]);
    assert!(rt; buffer == [7; 256]);
    Ok(())
}
