// The commands on banks. A command takes the session, which stays, and the words of its line, which it uses up, or the
// name that it took of them: one value of both would be made for the one call.
use crate::arguments::{last_number, next_byte, next_name, next_word, rest_widths};
use crate::faults::Fault;
use crate::objects::{Object, Objects};
use crate::session::Session;
use banks::{Bank, BankFault, Loss};
use choices::{AnyBank, Change, FramedFault};
use texts::{RefusalText, Words};

// The bank of a name, lent to be changed.
fn bank_named<'a, 'b>(
    objects: &'b mut Objects,
    name: &'a str,
) -> Result<&'b mut AnyBank, Fault<'a>> {
    match objects.find_mut(name) {
        Some(Object::Bank(bank)) => Ok(bank),
        Some(_) => Err(Fault::NotBank(name)),
        None => Err(Fault::NotDefined(name)),
    }
}

// Gives a name a bank. A bank is large, so it comes here itself: a `Result` around it would be one copy more.
fn keep_bank<'a>(session: &mut Session, name: &'a str, bank: AnyBank) -> Result<(), Fault<'a>> {
    session.define(name, Object::Bank(bank))?;
    writeln!(session.out, "bank {name}: {} names", bank.names())?;
    Ok(())
}

// Says why no bank was made.
fn tell_fault<'a>(session: &mut Session, name: &'a str, fault: BankFault) -> Result<(), Fault<'a>> {
    let refusal = RefusalText(fault.into());
    writeln!(session.out, "bank {name}: {refusal}")?;
    Ok(())
}

// Gives a name the bank that was made, or says why none was.
fn keep_made<'a>(
    session: &mut Session,
    name: &'a str,
    made: Result<AnyBank, BankFault>,
) -> Result<(), Fault<'a>> {
    match made {
        Ok(bank) => keep_bank(session, name, bank),
        Err(fault) => tell_fault(session, name, fault),
    }
}

// `bank NAME variables W..`: makes variables.
fn define_variables<'a>(
    session: &mut Session,
    name: &'a str,
    words: Words<'a>,
) -> Result<(), Fault<'a>> {
    let widths = rest_widths(session.heap(), words)?;
    keep_made(session, name, AnyBank::variables(&widths))
}

// `bank NAME frame BASE W..`: makes a frame over a copy of a bank.
fn define_frame<'a>(
    session: &mut Session,
    name: &'a str,
    mut words: Words<'a>,
) -> Result<(), Fault<'a>> {
    let heap = session.heap();
    let base_name = next_name(&mut words)?;
    let base = bank_named(&mut session.objects, base_name)?;
    let widths = rest_widths(heap, words)?;
    // a match: one fault is told and the run goes on, the other ends it, which `map_err` cannot say
    match base.framed(&widths) {
        Ok(bank) => keep_bank(session, name, bank),
        Err(FramedFault::Slots(fault)) => tell_fault(session, name, fault),
        Err(FramedFault::Layers) => Err(Fault::TwoFrames(base_name)),
    }
}

// `bank NAME KIND ..`: makes a bank. A match on the kind: each takes other words.
pub fn define_bank<'a>(session: &mut Session, mut words: Words<'a>) -> Result<(), Fault<'a>> {
    let name = next_name(&mut words)?;
    match next_word(&mut words, "a kind of bank")? {
        b"variables" => define_variables(session, name, words),
        b"nested" => keep_bank(session, name, AnyBank::nested(last_number(words)?)),
        b"paired" => keep_bank(session, name, AnyBank::paired(last_number(words)?)),
        b"frame" => define_frame(session, name, words),
        word => Err(Fault::NoKind(word)),
    }
}

// `put BANK A WORD`: puts a word under a name.
pub fn put_word<'a>(session: &mut Session, mut words: Words<'a>) -> Result<(), Fault<'a>> {
    let name = next_name(&mut words)?;
    let a = next_byte(&mut words)?;
    let w = last_number(words)?;
    Change::Put(a, w).apply(bank_named(&mut session.objects, name)?);
    Ok(())
}

// `call-loss BANK WORD` and `pause-loss BANK WORD`: a loss.
pub fn lose<'a>(session: &mut Session, loss: Loss, mut words: Words<'a>) -> Result<(), Fault<'a>> {
    let name = next_name(&mut words)?;
    let w = last_number(words)?;
    Change::Lose(loss, w).apply(bank_named(&mut session.objects, name)?);
    Ok(())
}
