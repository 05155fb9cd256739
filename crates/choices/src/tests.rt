use super::*;
use banks::{Bank, Loss};
use std::test::Fail;

#[test]
fn two_layers_of_frames_and_no_third(rt: HostRuntime) -> Result<(), Fail> {
    let Ok(inner) = AnyBank::nested(7).framed(&[4]) else {
        return Err(Fail::new("no first layer"));
    };
    let Ok(mut outer) = inner.framed(&[2]) else {
        return Err(Fail::new("no second layer"));
    };
    Change::Put(33, 0x12345).apply(&mut outer);
    Change::Lose(Loss::Pause, 9).apply(&mut outer);
    assert_eq!(rt; outer.look(33), 0x2345);
    assert_eq!(rt; outer.look(31), 9);
    match outer.framed(&[1]) {
        Err(FramedFault::Layers) => Ok(()),
        _ => Err(Fail::new("a third layer")),
    }
}
