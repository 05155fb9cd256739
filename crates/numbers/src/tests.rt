use super::*;
use std::test::Fail;

#[test]
fn reads_128(rt: HostRuntime) {
    assert_eq!(rt;
        read_number(&[0x80, 0x01], 0),
        Ok(Parsed {
            value: 128,
            next: 2
        })
    );
}

#[test]
fn refuses_a_longer_writing(rt: HostRuntime) -> Result<(), Fail> {
    match read_number(&[0x80, 0x00], 0) {
        Err(fault) => {
            assert_eq!(rt; Refusal::from(fault), Refusal::at(1, 0));
            Ok(())
        },
        Ok(_) => Err(Fail::new("accepted")),
    }
}

#[test]
fn writes_the_largest(rt: HostRuntime) -> Result<(), Fail> {
    let mut out = Vec::new(rt.alloc());
    write_number(&mut out, u64::MAX)?;
    assert!(rt;
        out.as_slice() == [0xff, 0xff, 0xff, 0xff, 0xff, 0xff, 0xff, 0xff, 0xff, 0x01].as_slice()
    );
    Ok(())
}
