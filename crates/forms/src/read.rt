// Reading a form.
ghost use Rattle.std.specs.Prelude.{◌≡◌, ◌-◌, ◌≤◌, length, replicate};
ghost use Rattle.forms.specs.Buffers.{over, onto, lengths};
ghost use Rattle.forms.specs.Cursor.{Reads, number_at, reached};
ghost use Rattle.forms.specs.Reading.{field_at, word_at, fields_at, row_at, count_in, row_count_at, names_at, rows_at, blocks_at, answer, rows_after, head_after, Fills};
ghost use Rattle.forms.specs.Writing.{IsWritten, Accepts};

use crate::fault::FormFault;
use crate::limits::{Limits, limits_of, placed};
use crate::row::{Head, Row};
use numbers::{Parsed, read_number};

// Reads a form: its rows into a lent buffer, one by one, and the rest into a lent head, after the last
// row. Rows stored before a refusal remain, and the head is then as it was. What was read fills a form,
// and bytes are read exactly if they are the writing of a form that keeps the rules and has room.
pub fn read_form(bytes: &[u8], rows: &mut [Row], head: &mut Head) -> Result<(), FormFault>
    ensures result { result ≡ answer bytes.now rows.old }
    ensures rows { rows.new ≡ rows_after bytes.now rows.old }
    ensures head { head.new ≡ head_after bytes.now rows.old head.old }
    ensures fills { Fills bytes.now (length rows.old) rows.new head.new }
    ensures written { IsWritten bytes.now (length rows.old) }
    ensures accepts { Accepts bytes.now (length rows.old) }
{
    let mut reader = Reader { bytes, at: 0 };
    let blocks = reader.count_in(1, 64)?;
    let params = reader.count_in(0, 8)?;
    let names = reader.names(params)?;
    let counts = reader.blocks(blocks, rows)?;
    if reader.at < bytes.len() {
        return Err(FormFault::LeftOver(reader.at));
    }
    *head = Head {
        blocks,
        params,
        names,
        counts,
    };
    Ok(())
}

// The bytes, and the place where the next thing is read.
#[derive(Drop)]
struct Reader<'b> {
    bytes: &'b [u8],
    at: usize,
}

impl<'b> Reader<'b> {
    // A number.
    fn number(&mut self) -> Result<u64, FormFault>
        ensures { Reads number_at self.old self.new result }
    {
        let Parsed { value, next } = read_number(self.bytes, self.at)?;
        self.at = next;
        Ok(value)
    }

    // A field up to its highest number; of one that is not there nothing is read.
    fn field(&mut self, highest: Option<u8>) -> Result<u8, FormFault>
        ensures { Reads (field_at highest) self.old self.new result }
    {
        let Some(highest) = highest else {
            return Ok(0);
        };
        let at = self.at;
        match u8::try_from(self.number()?) {
            Ok(value) if value <= highest => Ok(value),
            _ => Err(FormFault::Range(at)),
        }
    }

    // A constant, where there is one: any word, with no limit and so no refusal of its own, unlike a field.
    fn word(&mut self, there: bool) -> Result<u64, FormFault>
        ensures { Reads (word_at there) self.old self.new result }
    {
        if there { self.number() } else { Ok(0) }
    }

    // The fields of a row of a kind, which is a number of the format.
    fn fields(&mut self, kind: u8, l: &Limits) -> Result<Row, FormFault>
        ensures { Reads (fields_at l.now kind) self.old self.new result }
    {
        let o = self.field(l.o)?;
        let k = self.field(l.k)?;
        let d = self.field(l.d)?;
        let a = self.field(l.a)?;
        let b = self.field(l.b)?;
        let c = self.word(l.c)?;
        let t = self.field(l.t)?;
        let f = self.field(l.f)?;
        Ok(Row {
            kind,
            o,
            d,
            a,
            b,
            k,
            c,
            t,
            f,
        })
    }

    // A row of a form whose last block is `last`.
    fn row(&mut self, last: u8) -> Result<Row, FormFault>
        ensures { Reads (row_at last) self.old self.new result }
    {
        let kind = self.field(Some(10))?;
        self.fields(kind, &limits_of(kind, last))
    }

    // A count within its limits. A field has another fault: one over both would take the fault as a closure.
    fn count_in(&mut self, low: u8, high: u8) -> Result<u8, FormFault>
        ensures { Reads (count_in low high) self.old self.new result }
    {
        let at = self.at;
        match u8::try_from(self.number()?) {
            Ok(count) if low <= count && count <= high => Ok(count),
            _ => Err(FormFault::Count(at)),
        }
    }

    // A block's row count, after `used` rows.
    fn row_count(&mut self, used: usize) -> Result<u8, FormFault>
        requires { used ≤ 512 }
        ensures { Reads (row_count_at used) self.old self.new result }
    {
        let at = self.at;
        let count = self.count_in(1, 64)?;
        if used + count as usize > 512 {
            return Err(FormFault::Count(at));
        }
        Ok(count)
    }

    // The parameters' names; what is not used is 0.
    fn names(&mut self, params: u8) -> Result<[u8; 8], FormFault>
        requires { params ≤ 8 }
        ensures { Reads (λ bytes at. onto 0 (replicate 8 0) (names_at params bytes at)) self.old self.new result }
    {
        let mut names = [0u8; 8];
        for name in &mut names[..params as usize] {
            *name = self.field(Some(63))?;
        }
        Ok(names)
    }

    // The rows of a block, stored into the first free places. They are stored by index: `split_first_mut`
    // and an iterator's `next` were tried, and the proof did not learn what was written into a lent place.
    fn rows(&mut self, count: u8, last: u8, free: &mut [Row]) -> Result<(), FormFault>
        ensures result { Reads (λ bytes at. reached (rows_at count last (length free.old) bytes at 0).outcome) self.old self.new result }
        ensures rows { free.new ≡ over 0 (rows_at count last (length free.old) self.old.bytes.now self.old.at 0).stored free.old }
    {
        for i in 0..count as usize {
            let at = self.at;
            let row = self.row(last)?;
            if !placed(&row, i + 1 == count as usize) {
                return Err(FormFault::Ending(at));
            }
            if i >= free.len() {
                return Err(FormFault::NoPlace(at));
            }
            free[i] = row;
        }
        Ok(())
    }

    // The blocks, their rows stored; what is read of them are their row counts. The next free place is counted, which
    // the limit of 512 rows needs anyway.
    fn blocks(&mut self, blocks: u8, rows: &mut [Row]) -> Result<[u8; 64], FormFault>
        requires { blocks ≤ 64 }
        ensures result { Reads (λ bytes at. onto 0 (replicate 64 0) (lengths (blocks_at blocks (blocks - 1) (length rows.old) bytes at 0).outcome)) self.old self.new result }
        ensures rows { rows.new ≡ over 0 (blocks_at blocks (blocks - 1) (length rows.old) self.old.bytes.now self.old.at 0).stored rows.old }
    {
        let mut counts = [0u8; 64];
        let mut place = 0usize;
        for count in &mut counts[..blocks as usize] {
            *count = self.row_count(place)?;
            self.rows(*count, blocks - 1, &mut rows[place..])?;
            place += *count as usize;
        }
        Ok(counts)
    }
}
