// Numbers as they may stand in a job text.
use plantext::numbers::read_number;

#[test]
fn numbers_are_read(rt: HostRuntime) {
    assert_eq!(rt; read_number(b"0"), Some(0));
    assert_eq!(rt; read_number(b"9"), Some(9));
    assert_eq!(rt; read_number(b"10"), Some(10));
    assert_eq!(rt; read_number(b"123456789012345"), Some(123_456_789_012_345));
    assert_eq!(rt; read_number(b"999999999999999"), Some(999_999_999_999_999));
}

#[test]
fn other_forms_are_refused(rt: HostRuntime) {
    assert_eq!(rt; read_number(b""), None);
    assert_eq!(rt; read_number(b"00"), None);
    assert_eq!(rt; read_number(b"01"), None);
    assert_eq!(rt; read_number(b"1000000000000000"), None);
    assert_eq!(rt; read_number(b"000000000000001"), None);
    assert_eq!(rt; read_number(b"1a"), None);
    assert_eq!(rt; read_number(b"/"), None);
    assert_eq!(rt; read_number(b":"), None);
    assert_eq!(rt; read_number(b"-1"), None);
    assert_eq!(rt; read_number(b" 1"), None);
}
