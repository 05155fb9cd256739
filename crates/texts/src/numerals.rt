// What words write in digits: numbers and bytes.
ghost use Rattle.std.specs.Prelude.{◌≡◌, ◌≤◌};
ghost use Rattle.texts.specs.Digits.{digit, digit_in, pair, narrow, extended, numeral, number, byte_number, declared_width, pairs, Pushed};
ghost use Rattle.texts.specs.declared.numerals.PairsFault.TheVariants.{Memory};

use std::alloc::AllocFailed;

// The value of a hexadecimal digit.
pub fn hex_value(b: u8) -> Option<u8>
    ensures { result ≡ digit b }
{
    u8::try_from(char::from(b).to_digit(16)?).ok()
}

// The value of a digit in a base.
fn digit_value(base: u64, b: u8) -> Option<u64>
    ensures { result ≡ digit_in base b }
{
    let value = u64::from(hex_value(b)?);
    if value < base { Some(value) } else { None }
}

// The byte that two digits write.
fn pair_value(high: u8, low: u8) -> Option<u8>
    ensures { result ≡ pair high low }
{
    let high = hex_value(high)?;
    let low = hex_value(low)?;
    Some(high * 16 + low)
}

// The number with one digit more, where that has 64 bits.
fn with_digit(base: u64, value: u64, b: u8) -> Option<u64>
    ensures { result ≡ extended base value b }
{
    let digit = digit_value(base, b)?;
    value.checked_mul(base)?.checked_add(digit)
}

// The number that digits write in a base: one digit at least, and a number of 64 bits.
fn numeral_value(base: u64, digits: &[u8]) -> Option<u64>
    requires { 1 ≤ base }
    ensures { result ≡ narrow (numeral base digits.now) }
{
    if digits.is_empty() {
        return None;
    }
    digits
        .iter()
        .try_fold(0, |value, b| with_digit(base, value, *b))
}

// The number that a word writes: decimal, or 0x and hexadecimal digits.
pub fn number_value(word: &[u8]) -> Option<u64>
    ensures { result ≡ number word.now }
{
    match word {
        [b'0', b'x', digits @ ..] => numeral_value(16, digits),
        _ => numeral_value(10, word),
    }
}

// The number below 256 that a word writes.
pub fn byte_value(word: &[u8]) -> Option<u8>
    ensures { result ≡ byte_number word.now }
{
    u8::try_from(number_value(word)?).ok()
}

// The width that a word declares, where all above 255 are handed on as 255, which is no width either.
pub fn width_value(word: &[u8]) -> Option<u8>
    ensures { result ≡ declared_width word.now }
{
    let value = number_value(word)?;
    Some(u8::try_from(value).unwrap_or(u8::MAX))
}

// Why a word's bytes were not read.
#[derive(Clone, Copy, PartialEq, Eq, Debug)]
pub enum PairsFault {
    NotPairs,
    Memory,
}

impl<T: Drop> From<AllocFailed<T>> for PairsFault {
    ghost from_gives = { λ _ r. r ≡ Memory };

    fn from(_e: AllocFailed<T>) -> PairsFault {
        PairsFault::Memory
    }
}

// Adds the bytes that a word writes as pairs of hexadecimal digits.
pub fn push_pairs(bytes: &mut Vec<u8>, word: &[u8]) -> Result<(), PairsFault>
    ensures { Pushed bytes.old.items bytes.new.items (pairs word.now) result }
{
    for digits in word.chunks(2) {
        let [high, low] = digits else {
            return Err(PairsFault::NotPairs);
        };
        let byte = pair_value(*high, *low).ok_or(PairsFault::NotPairs)?;
        bytes.push(byte)?;
    }
    Ok(())
}
