// Why a line is not carried out.
use std::alloc::{AllocError, AllocFailed};
use std::{fmt, io};

// What is wrong with a line, with the word that is to blame.
#[derive(Clone, Copy)]
pub enum Fault<'a> {
    NoCommand(&'a [u8]),
    NoKind(&'a [u8]),
    Missing(&'static str),
    Extra(&'a [u8]),
    BadName(&'a [u8]),
    BadNumber(&'a [u8]),
    BadByte(&'a [u8]),
    BadBytes(&'a [u8]),
    NotDefined(&'a str),
    NotBank(&'a str),
    TwoFrames(&'a str),
    Unreadable(&'a [u8], io::Error),
    NoMemory,
}

impl<'a> From<AllocError> for Fault<'a> {
    fn from(_e: AllocError) -> Fault<'a> {
        Fault::NoMemory
    }
}

impl<'a, T: Drop> From<AllocFailed<T>> for Fault<'a> {
    fn from(_e: AllocFailed<T>) -> Fault<'a> {
        Fault::NoMemory
    }
}

// A word as a message shows it: its first bytes, and those that are no ASCII text by their numbers.
#[derive(Clone, Copy)]
struct Quoted<'a>(&'a [u8]);

// How many bytes of a word a message shows.
const SHOWN: usize = 60;

impl<'a> fmt::Display for Quoted<'a> {
    fn fmt<W: fmt::Write>(&self, f: &mut fmt::Formatter<W>) -> fmt::Result {
        for b in self.0.iter().take(SHOWN) {
            match *b {
                b' '..=b'~' => f.write_char(char::from(*b))?,
                other => write!(f, "\\x{other:02x}")?,
            }
        }
        if self.0.len() > SHOWN {
            f.write_str("..")
        } else {
            Ok(())
        }
    }
}

impl<'a> fmt::Display for Fault<'a> {
    fn fmt<W: fmt::Write>(&self, f: &mut fmt::Formatter<W>) -> fmt::Result {
        match *self {
            Fault::NoCommand(word) => write!(f, "no such command: {}", Quoted(word)),
            Fault::NoKind(word) => write!(f, "no such kind of bank: {}", Quoted(word)),
            Fault::Missing(what) => write!(f, "{what} is missing"),
            Fault::Extra(word) => write!(f, "one word too many: {}", Quoted(word)),
            Fault::BadName(word) => write!(f, "not a name: {}", Quoted(word)),
            Fault::BadNumber(word) => write!(f, "not a number below 2^64: {}", Quoted(word)),
            Fault::BadByte(word) => write!(f, "not a number below 256: {}", Quoted(word)),
            Fault::BadBytes(word) => write!(f, "not pairs of hexadecimal digits: {}", Quoted(word)),
            Fault::NotDefined(name) => write!(f, "not defined: {name}"),
            Fault::NotBank(name) => write!(f, "not a bank: {name}"),
            Fault::TwoFrames(name) => write!(f, "a frame over two frames: {name}"),
            Fault::Unreadable(path, error) => write!(f, "cannot read {}: {error}", Quoted(path)),
            Fault::NoMemory => f.write_str("no memory"),
        }
    }
}
