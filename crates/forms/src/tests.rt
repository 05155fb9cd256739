use super::*;
use numbers::Refusal;
use std::test::Fail;

// Two blocks and one parameter: call 0, then a pause; then give.
const WORKED: [u8; 13] = [2, 1, 0, 2, 6, 0, 1, 0, 9, 1, 1, 10, 0];

#[test]
fn a_form_that_was_read_is_filled(rt: HostRuntime) -> Result<(), Fail> {
    let mut rows = [Row::NONE; 3];
    let mut head = Head::NONE;
    read_form(&WORKED, &mut rows, &mut head)?;
    let lent = &rows;
    let top = &head;
    let mut form = Form::give_zero();
    form.fill(lent, top)?;
    assert!(rt; form.blocks() == 2 && form.row_count() == 3);
    let pause = form.block(0);
    assert!(rt; pause.len() == 2);
    assert_eq!(rt;
        pause[1],
        Row {
            kind: 9,
            t: 1,
            ..Row::NONE
        }
    );
    Ok(())
}

#[test]
fn a_refused_reading_keeps_the_head(rt: HostRuntime) -> Result<(), Fail> {
    let mut rows = [Row::NONE; 2];
    let mut head = Head::NONE;
    match read_form(&WORKED, &mut rows, &mut head) {
        Err(fault) => {
            assert_eq!(rt; Refusal::from(fault), Refusal::at(6, 11));
            assert!(rt; head.blocks == 0 && rows[1].kind == 9);
            Ok(())
        }
        Ok(()) => Err(Fail::new("accepted")),
    }
}

#[test]
fn a_head_never_stored_is_no_form(rt: HostRuntime) {
    let rows = [Row::NONE; 1];
    let head = Head::NONE;
    let lent = &rows;
    let top = &head;
    let mut form = Form::give_zero();
    assert_eq!(rt; form.fill(lent, top), Err(FormFault::NotAForm));
    assert!(rt; form.blocks() == 1 && form.row_count() == 1);
}
