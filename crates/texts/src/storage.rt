// What a reading left in a buffer of rows.
ghost use Rattle.std.specs.Prelude.{◌≡◌, ◌≤◌, length};
ghost use Rattle.texts.specs.Storage.{stored};

use forms::Row;

// How many rows at the front of a buffer were stored.
pub fn stored_rows(rows: &[Row]) -> usize
    ensures count { result ≡ stored rows.now }
    ensures within { result ≤ length rows.now }
{
    rows.iter()
        .take_while(|row| row.kind != Row::NONE.kind)
        .count()
}
