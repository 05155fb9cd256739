use super::*;

#[test]
fn a_line_is_cut_into_words(rt: HostRuntime) {
    let mut words = Words::of(b" put n\t0x02 # two");
    assert!(rt; words.next() == Some(b"put"));
    assert!(rt; words.next() == Some(b"n"));
    assert_eq!(rt; number_value(b"0x02"), Some(2));
    assert!(rt; words.next() == Some(b"0x02"));
    assert!(rt; words.next() == None);
}

#[test]
fn numbers_have_limits(rt: HostRuntime) {
    assert_eq!(rt; number_value(b"18446744073709551616"), None);
    assert_eq!(rt; byte_value(b"256"), None);
    assert_eq!(rt; width_value(b"257"), Some(255));
}
