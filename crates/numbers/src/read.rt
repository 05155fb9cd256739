// Reading a number.
ghost use Rattle.std.specs.Prelude.{◌≡◌, IfOk};
ghost use Rattle.numbers.specs.Reading.{number};
ghost use Rattle.numbers.specs.Writing.{WrittenAt};

use crate::fault::NumberFault;

// What was read, and the place after it.
#[derive(Clone, Copy, PartialEq, Eq, Debug)]
pub struct Parsed<T> {
    pub value: T,
    pub next: usize,
}

// The number at a place of the bytes. Whatever is read is what would be written for it.
pub fn read_number(bytes: &[u8], at: usize) -> Result<Parsed<u64>, NumberFault>
    ensures result { result ≡ number bytes.now at }
    ensures written { IfOk result (WrittenAt bytes.now at) }
{
    let rest = bytes.get(at..).unwrap_or(&[]);
    let mut value: u64 = 0;
    let mut scale: u64 = 1;
    for (group, &b) in rest.iter().enumerate() {
        match b {
            0 if group > 0 => return Err(NumberFault::NotShortest(at)),
            2..=255 if group == 9 => return Err(NumberFault::TooLarge(at)),
            0..=127 => return Ok(Parsed {
                value: value + b as u64 * scale,
                next: at + group + 1,
            }),
            _ => {
                value += (b as u64 - 128) * scale;
                scale *= 128;
            }
        }
    }
    Err(NumberFault::CutOff(at))
}
