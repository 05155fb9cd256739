// The commands, each by its first word.
use crate::arguments::{next_name, no_more};
use crate::bank_commands::{define_bank, lose, put_word};
use crate::faults::Fault;
use crate::form_commands::define_form;
use crate::objects::Object;
use crate::session::Session;
use crate::show::{write_bank, write_form_text};
use banks::Loss;
use texts::Words;

// `show NAME`: prints an object, whole.
fn show_object<'a>(session: &mut Session, mut words: Words<'a>) -> Result<(), Fault<'a>> {
    let name = next_name(&mut words)?;
    no_more(words)?;
    let Session { objects, out, .. } = session;
    match objects.find(name) {
        Some(Object::Form(text)) => write_form_text(out, name, text)?,
        Some(Object::Bank(bank)) => write_bank(out, name, bank)?,
        None => return Err(Fault::NotDefined(name)),
    }
    Ok(())
}

// Carries out a line. A match on its first word: a table of functions would have to be searched by hand.
pub fn carry_out<'a>(session: &mut Session, line: &'a [u8]) -> Result<(), Fault<'a>> {
    let mut words = Words::of(line);
    match words.next() {
        None => Ok(()),
        Some(b"form") => define_form(session, words),
        Some(b"bank") => define_bank(session, words),
        Some(b"put") => put_word(session, words),
        Some(b"call-loss") => lose(session, Loss::Call, words),
        Some(b"pause-loss") => lose(session, Loss::Pause, words),
        Some(b"show") => show_object(session, words),
        Some(word) => Err(Fault::NoCommand(word)),
    }
}
