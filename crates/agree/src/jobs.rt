// Job files: where their lines come from, and how they are carried out.
use crate::commands::carry_out;
use crate::demo::DEMO;
use crate::session::Session;
use std::io::Read;
use std::{fs, io};
use texts::Lines;

// Why a run ended before its last line: at a line or a file, which it has told, or for want of input or output.
#[derive(Clone, Copy)]
pub enum Stopped {
    Told,
    Failed(io::Error),
}

impl From<io::Error> for Stopped {
    fn from(e: io::Error) -> Stopped {
        Stopped::Failed(e)
    }
}

// Carries out the lines of a text, up to the first that is bad.
fn run_text(session: &mut Session, file: &str, text: &[u8]) -> Result<(), Stopped> {
    for (i, line) in Lines::of(text).enumerate() {
        if let Err(fault) = carry_out(session, line) {
            session.flush()?;
            eprintln!(session.rt; "{file}:{}: {fault}", i + 1)?;
            return Err(Stopped::Told);
        }
        session.flush_much()?;
    }
    session.flush()?;
    Ok(())
}

// The bytes of standard input, to its end.
fn input_bytes(rt: &HostRuntime) -> io::Result<Vec<u8>> {
    let mut bytes = Vec::new(rt.alloc());
    rt.stdin().read_to_end(&mut bytes)?;
    Ok(bytes)
}

// Carries out a job file: the demonstration, standard input, or a file by its path. A match: each has its bytes from
// elsewhere.
pub fn run_file(session: &mut Session, file: &str) -> Result<(), Stopped> {
    let read = match file {
        "--demo" => return run_text(session, file, DEMO.as_bytes()),
        "-" => input_bytes(session.rt),
        path => fs::read(session.rt, path),
    };
    match read {
        Ok(text) => run_text(session, file, &text),
        Err(error) => {
            eprintln!(session.rt; "{file}: cannot be read: {error}")?;
            Err(Stopped::Told)
        }
    }
}
