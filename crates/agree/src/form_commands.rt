// The commands on forms.
use crate::arguments::{next_name, next_number, rest_bytes, skip_keyword};
use crate::faults::Fault;
use crate::objects::{FormText, Object};
use crate::session::Session;
use forms::{FormFault, Head, Row, read_form};
use numbers::Refusal;
use std::alloc::{AllocError, Global};
use texts::{Counts, RefusalText, Words, stored_rows};

// The most rows that a form has.
const MOST_ROWS: u64 = 512;

// Why a form was not read: a refusal, and how many rows were stored before it.
#[derive(Clone, Copy)]
enum ReadFault {
    Refused(Refusal, usize),
    NoMemory,
}

impl From<AllocError> for ReadFault {
    fn from(_e: AllocError) -> ReadFault {
        ReadFault::NoMemory
    }
}

// Reads a form into a buffer that has room for some rows.
fn read_text(heap: Global, bytes: &[u8], room: usize) -> Result<(FormText, Counts), ReadFault> {
    let mut rows = vec![in heap; Row::NONE; room]?;
    let mut head = Head::NONE;
    let read = read_form(bytes, &mut rows, &mut head);
    let stored = stored_rows(&rows);
    let refused = |fault: FormFault| ReadFault::Refused(fault.into(), stored);
    read.map_err(refused)?;
    let rows = rows[0..stored].to_vec(heap)?;
    let text = FormText { rows, head };
    let counts = text.counts().map_err(refused)?;
    Ok((text, counts))
}

// The room that a line asks for by the word `rows`, or room for any form.
fn next_room<'a>(words: &mut Words<'a>) -> Result<usize, Fault<'a>> {
    if !skip_keyword(words, b"rows") {
        return Ok(MOST_ROWS as usize);
    }
    let asked = next_number(words)?;
    Ok(asked.min(MOST_ROWS) as usize)
}

// `form NAME BYTES` and `form NAME rows N BYTES`: reads a form.
pub fn define_form<'a>(session: &mut Session, mut words: Words<'a>) -> Result<(), Fault<'a>> {
    let name = next_name(&mut words)?;
    let room = next_room(&mut words)?;
    let bytes = rest_bytes(session.rt, words)?;
    match read_text(session.heap(), &bytes, room) {
        Ok((text, counts)) => {
            session.define(name, Object::Form(text))?;
            writeln!(session.out, "form {name}: {counts}")?;
        }
        Err(ReadFault::Refused(refusal, stored)) => {
            let refusal = RefusalText(refusal);
            writeln!(session.out, "form {name}: {refusal} stored {stored}")?;
        }
        Err(ReadFault::NoMemory) => return Err(Fault::NoMemory),
    }
    Ok(())
}
