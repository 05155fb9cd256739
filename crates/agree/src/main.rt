// Carries out job files over the libraries of forms and banks.
#![tactic(auto)]

mod arguments;
mod bank_commands;
mod commands;
mod demo;
mod faults;
mod form_commands;
mod jobs;
mod objects;
mod session;
mod show;

use jobs::{Stopped, run_file};
use session::Session;
use std::env;
use std::process::ExitCode;

// What `agree --help` prints.
const USAGE: &str = "usage: agree [FILE...]
Carries out job files in order. - is standard input, and --demo the built-in
demonstration, which also runs where no file is named.

  form NAME BYTES            reads a form
  form NAME rows N BYTES     the same, with room for N rows
  bank NAME variables W...   makes a bank: names of these widths
  bank NAME nested WORD      the same: units of eight bytes, all WORD
  bank NAME paired WORD      the same: cells of a byte, with the bytes of WORD
  bank NAME frame BASE W...  the same: slots of these widths over a copy of BASE
  put BANK A WORD            puts a word under a name
  call-loss BANK WORD        the loss at a call
  pause-loss BANK WORD       the loss at a pause
  show NAME                  prints an object, whole

# starts a comment. BYTES are pairs of hexadecimal digits, or @PATH for a file's.
";

// Carries out what an argument names.
fn run_argument(session: &mut Session, argument: &str) -> Result<(), Stopped> {
    if argument == "--help" {
        session.rt.print(USAGE)?;
        return Ok(());
    }
    run_file(session, argument)
}

// Carries out what the arguments name, or the demonstration where there are none.
fn run(rt: &HostRuntime) -> Result<(), Stopped> {
    let mut session = Session::new(rt);
    let arguments = env::args(rt)?;
    if arguments.len() < 2 {
        return run_file(&mut session, "--demo");
    }
    for argument in arguments.skip(1) {
        run_argument(&mut session, argument.as_str())?;
    }
    Ok(())
}

fn main(rt: HostRuntime) -> ExitCode {
    match run(&rt) {
        Ok(()) => ExitCode::SUCCESS,
        Err(Stopped::Told) => ExitCode::FAILURE,
        Err(Stopped::Failed(error)) => {
            let _ = eprintln!(rt; "agree: {error}");
            ExitCode::FAILURE
        }
    }
}

#[cfg(test)]
mod tests;
