// Lines that are carried out, and lines that are bad.
use crate::commands::carry_out;
use crate::session::Session;
use std::alloc::AllocError;
use std::test::*;
use texts::Lines;

// What lines print, or the message of the first that is bad.
fn answer(rt: &HostRuntime, lines: &[u8]) -> Result<String, AllocError> {
    let mut session = Session::new(rt);
    for line in Lines::of(lines) {
        if let Err(fault) = carry_out(&mut session, line) {
            return format!(in rt.alloc(); "{fault}");
        }
    }
    session.out.clone()
}

// That lines, alone, answer so.
fn answers(rt: &HostRuntime, lines: &[u8], expected: &str) -> Result<(), Fail> {
    let said = answer(rt, lines)?;
    if said.as_str() == expected {
        Ok(())
    } else {
        Err(Fail::new("another answer"))
    }
}

#[test]
fn good_line(rt: HostRuntime) -> Result<(), Fail> {
    answers(
        &rt,
        b" form a-1 rows 0x2 01 0001\t0A3f # one row\r",
        "form a-1: 1 blocks, 0 parameters, 1 rows\n",
    )
}

#[test]
fn bad_words(rt: HostRuntime) -> Result<(), Fail> {
    answers(&rt, b"foo \xff", "no such command: foo")?;
    answers(
        &rt,
        b"form a 01 000",
        "not pairs of hexadecimal digits: 000",
    )?;
    answers(
        &rt,
        b"form a rows 18446744073709551616 01",
        "not a number below 2^64: 18446744073709551616",
    )
}

#[test]
fn undefined_name(rt: HostRuntime) -> Result<(), Fail> {
    answers(&rt, b"show a_b", "not defined: a_b")
}

#[test]
fn bad_banks(rt: HostRuntime) -> Result<(), Fail> {
    answers(&rt, b"bank b", "a kind of bank is missing")?;
    answers(&rt, b"bank b nest 1", "no such kind of bank: nest")?;
    answers(&rt, b"bank b paired 1 2", "one word too many: 2")?;
    answers(&rt, b"bank b variables 4 x", "not a number below 2^64: x")?;
    answers(&rt, b"bank b frame a 4", "not defined: a")
}

#[test]
fn bad_frames(rt: HostRuntime) -> Result<(), Fail> {
    answers(
        &rt,
        b"bank b paired 1\nbank f frame b 1\nbank g frame f 1\nbank h frame g 1",
        "a frame over two frames: g",
    )
}

#[test]
fn bad_changes(rt: HostRuntime) -> Result<(), Fail> {
    answers(&rt, b"put b 256 1", "not a number below 256: 256")?;
    answers(&rt, b"call-loss b", "a number is missing")?;
    answers(
        &rt,
        b"form b 01 00 01 0a 3f\npause-loss b 1",
        "not a bank: b",
    )
}
