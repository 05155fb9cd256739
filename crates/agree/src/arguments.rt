// The words after a command, each read as what the command takes.
use crate::faults::Fault;
use std::alloc::Global;
use std::str::from_utf8;
use std::{fs, io};
use texts::{PairsFault, Words, byte_value, name_of, number_value, push_pairs, width_value};

// The next word, or what is missing. The three readers below stay apart: one function over the rule and the fault was
// tried, and refused, since the fault borrows the word.
pub(crate) fn next_word<'a>(
    words: &mut Words<'a>,
    what: &'static str,
) -> Result<&'a [u8], Fault<'a>> {
    words.next().ok_or(Fault::Missing(what))
}

// The next word, which is a name.
pub fn next_name<'a>(words: &mut Words<'a>) -> Result<&'a str, Fault<'a>> {
    let word = next_word(words, "a name")?;
    name_of(word).ok_or(Fault::BadName(word))
}

// The next word, which is a number.
pub fn next_number<'a>(words: &mut Words<'a>) -> Result<u64, Fault<'a>> {
    let word = next_word(words, "a number")?;
    number_value(word).ok_or(Fault::BadNumber(word))
}

// The next word, which is a number below 256.
pub fn next_byte<'a>(words: &mut Words<'a>) -> Result<u8, Fault<'a>> {
    let word = next_word(words, "a number")?;
    byte_value(word).ok_or(Fault::BadByte(word))
}

// The last word, which is a number.
pub fn last_number<'a>(mut words: Words<'a>) -> Result<u64, Fault<'a>> {
    let number = next_number(&mut words)?;
    no_more(words)?;
    Ok(number)
}

// Passes over the next word where it is the given one, and says whether it was.
pub fn skip_keyword(words: &mut Words, keyword: &[u8]) -> bool {
    let mut ahead = *words;
    let found = ahead.next() == Some(keyword);
    if found {
        *words = ahead;
    }
    found
}

// That no word is left.
pub fn no_more<'a>(mut words: Words<'a>) -> Result<(), Fault<'a>> {
    words.next().map_or(Ok(()), |word| Err(Fault::Extra(word)))
}

// The widths that the words declare.
pub fn rest_widths<'a>(heap: Global, words: Words<'a>) -> Result<Vec<u8>, Fault<'a>> {
    let mut widths = Vec::new(heap);
    for word in words {
        widths.push(width_value(word).ok_or(Fault::BadNumber(word))?)?;
    }
    Ok(widths)
}

// The bytes that the words write in pairs of hexadecimal digits, or those of the file after an @.
pub fn rest_bytes<'a>(rt: &HostRuntime, words: Words<'a>) -> Result<Vec<u8>, Fault<'a>> {
    let mut ahead = words;
    if let Some([b'@', path @ ..]) = ahead.next() {
        no_more(ahead)?;
        return file_bytes(rt, path);
    }
    let mut bytes = Vec::new(rt.alloc());
    for word in words {
        push_pairs(&mut bytes, word).map_err(|fault| match fault {
            PairsFault::NotPairs => Fault::BadBytes(word),
            PairsFault::Memory => Fault::NoMemory,
        })?;
    }
    Ok(bytes)
}

// The bytes of a file.
fn file_bytes<'a>(rt: &HostRuntime, path: &'a [u8]) -> Result<Vec<u8>, Fault<'a>> {
    let invalid = io::Error::from(io::ErrorKind::InvalidInput);
    let name = from_utf8(path).map_err(|_| Fault::Unreadable(path, invalid))?;
    fs::read(rt, name).map_err(|error| Fault::Unreadable(path, error))
}
