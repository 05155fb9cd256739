use super::*;
use forms::{Form, Head, Row, read_form};
use numbers::Refusal;
use std::test::Fail;

#[test]
fn four_bytes_clear_and_one_leaves(rt: HostRuntime) {
    let mut bank = Nested::new(0x1122334455667788);
    assert_eq!(rt; look_beside_put(&mut bank, 2, 0xaabbccdd, 3), 0xaabbccdd);
    let mut bank = Nested::new(0x1122334455667788);
    assert_eq!(rt; look_beside_put(&mut bank, 0, 0x99, 3), 0x1122334455667799);
}

#[test]
fn a_frame_over_a_frame_is_a_bank(rt: HostRuntime) -> Result<(), Fail> {
    let Ok(inner) = Frame::new(Paired::new(0x0807060504030201), &[4]) else {
        return Err(Fail::new("no inner frame"));
    };
    let Ok(mut outer) = Frame::new(inner, &[8, 1]) else {
        return Err(Fail::new("no outer frame"));
    };
    assert!(rt; outer.names() == 33);
    outer.put(30, 0x1_0000_0005);
    outer.put(32, 0x1ff);
    outer.lose(Loss::Call, 0);
    outer.lose(Loss::Pause, 0x1122334455667788);
    assert_eq!(rt; outer.look(30), 5);
    assert_eq!(rt; outer.look(32), 0xff);
    assert_eq!(rt; outer.look(29), 0x1122334455667788);
    Ok(())
}

#[test]
fn a_refused_frame_hands_the_bank_back(rt: HostRuntime) -> Result<(), Fail> {
    match Frame::new(Nested::new(7), &[1; 33]) {
        Ok(_) => Err(Fail::new("33 slots")),
        Err(Unframed { bank, fault }) => {
            assert_eq!(rt; Refusal::from(fault), Refusal::at(15, 0));
            assert_eq!(rt; bank.look(31), 7);
            Ok(())
        }
    }
}

#[test]
fn the_first_row_that_does_not_fit_is_named(rt: HostRuntime) -> Result<(), Fail> {
    // block 0: constant 0 255, go 1; block 1: move 0 0, constant 0 256, give 1; parameter 1
    let bytes = [
        2, 1, 1, 2, 1, 0, 0xff, 1, 7, 1, 3, 0, 0, 0, 1, 0, 0x80, 2, 10, 1,
    ];
    let mut rows = [Row::NONE; 5];
    let mut head = Head::NONE;
    read_form(&bytes, &mut rows, &mut head)?;
    let lent = &rows;
    let top = &head;
    let mut form = Form::give_zero();
    form.fill(lent, top)?;
    let bank = Variables::new(&[1])?;
    assert_eq!(rt;
        form_fits(&bank, &form, Side::Before),
        Err(FitFault::AtRow(Side::Before, 1, 1))
    );
    Ok(())
}

#[test]
fn a_parameter_that_is_no_name_does_not_fit(rt: HostRuntime) -> Result<(), Fail> {
    let mut rows = [Row::NONE; 1];
    let mut head = Head::NONE;
    read_form(&[1, 2, 0, 1, 1, 10, 0], &mut rows, &mut head)?;
    let lent = &rows;
    let top = &head;
    let mut form = Form::give_zero();
    form.fill(lent, top)?;
    let bank: Either<Variables, Nested> = Either::First(Variables::new(&[4])?);
    match form_fits(&bank, &form, Side::After) {
        Ok(()) => Err(Fail::new("it fits")),
        Err(fault) => {
            assert_eq!(rt;
                Refusal::from(fault),
                Refusal {
                    side: 2,
                    after: 1,
                    ..Refusal::at(7, 64)
                }
            );
            Ok(())
        },
    }
}
