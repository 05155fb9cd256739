// How forms and banks are printed, piece by piece: what was written stays where memory ends, which a Display, written
// whole or not at all, would undo. The name goes beside what is printed, which does not know it.
use crate::objects::FormText;
use banks::Bank;
use forms::{Form, Row};
use std::alloc::AllocError;
use texts::{Counts, RefusalText, RowText};

// Prints a form's parameters.
fn write_parameters(out: &mut String, names: &[u8]) -> Result<(), AllocError> {
    write!(out, "parameters:")?;
    for name in names {
        write!(out, " {name}")?;
    }
    writeln!(out)
}

// Prints the rows of a block.
fn write_block(out: &mut String, block: u8, rows: &[Row]) -> Result<(), AllocError> {
    for (i, row) in rows.iter().enumerate() {
        writeln!(out, "block {block} row {i}: {}", RowText(*row))?;
    }
    Ok(())
}

// Prints a form, whole. Its blocks are asked for by number, and each is printed with its number.
fn write_form(out: &mut String, name: &str, form: &Form) -> Result<(), AllocError> {
    writeln!(out, "form {name}: {}", Counts::of(form))?;
    write_parameters(out, form.parameters())?;
    for block in 0..form.blocks() {
        write_block(out, block, form.block(block))?;
    }
    Ok(())
}

// Prints a form's text as a form, or why it is none.
pub fn write_form_text(out: &mut String, name: &str, text: &FormText) -> Result<(), AllocError> {
    let mut form = Form::give_zero();
    match text.fill(&mut form) {
        Ok(()) => write_form(out, name, &form),
        Err(fault) => writeln!(out, "form {name}: {}", RefusalText(fault.into())),
    }
}

// Prints a bank: what each name holds. A bank's names are numbers, and it has no list of them to go over.
pub fn write_bank<B: Bank>(out: &mut String, name: &str, bank: &B) -> Result<(), AllocError> {
    write!(out, "bank {name}:")?;
    for a in 0..bank.names() {
        write!(out, " 0x{:x}", bank.look(a))?;
    }
    writeln!(out)
}
