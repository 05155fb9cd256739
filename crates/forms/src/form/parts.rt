// What a form has.
ghost use Rattle.std.specs.Prelude.{◌≡◌, ◌≤◌, [], length, take, sum, slice_index_or};
ghost use Rattle.forms.specs.Code.{row_count};
ghost use Rattle.forms.specs.View.{code};

use crate::form::Form;
use crate::row::Row;

impl<'r, 'h> Form<'r, 'h> {
    // How many blocks it has.
    pub fn blocks(&self) -> u8
        ensures { result ≡ length (code self.now).blocks }
    {
        self.head.blocks
    }

    // The parameters' names, in order.
    pub fn parameters(&self) -> &'h [u8]
        ensures { result.now ≡ (code self.now).params }
    {
        let params = self.head.params as usize;
        let names = &self.head.names[..];
        &names[0..params]
    }

    // The rows of a block, as a part of all rows; none where there is no such block.
    pub fn block(&self, b: u8) -> &'r [Row]
        ensures { result.now ≡ slice_index_or (code self.now).blocks b [] }
    {
        let head = self.head;
        if b >= head.blocks {
            return &[];
        }
        let start = self.rows_before(b);
        let count = head.counts[b as usize] as usize;
        &self.rows[start..start + count]
    }

    // How many rows it has.
    pub fn row_count(&self) -> usize
        ensures { result ≡ row_count (code self.now) }
    {
        let head = self.head;
        self.rows_before(head.blocks)
    }

    // How many rows stand before a block.
    fn rows_before(&self, b: u8) -> usize
        requires { b ≤ self.now.head.now.blocks }
        ensures { result ≡ sum (take b self.now.head.now.counts) }
    {
        self.head.counts[..b as usize]
            .iter()
            .map(|count| *count as usize)
            .sum()
    }
}
