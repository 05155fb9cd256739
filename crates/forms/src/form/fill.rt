// Filling a form.
ghost use Rattle.std.specs.Prelude.{◌≡◌, true};
ghost use Rattle.forms.specs.Code.{give_zero};
ghost use Rattle.forms.specs.Rules.{all_below, block_ok, rows_ok, head_ok, code_ok, form_ok, filled};
ghost use Rattle.forms.specs.View.{code, Holds};

use crate::fault::FormFault;
use crate::form::Form;
use crate::limits::{placed, row_ok};
use crate::row::{Head, Row};

// The row of the built-in form.
static ROWS: [Row; 1] = [Row {
    kind: 10,
    ..Row::NONE
}];

// Its head; the counts are written out, since a constant cannot change one element of an array.
static HEAD: Head = Head {
    blocks: 1,
    params: 0,
    names: [0; 8],
    counts: [
        1, 0, 0, 0, 0, 0, 0, 0, 0, 0, 0, 0, 0, 0, 0, 0, 0, 0, 0, 0, 0, 0, 0, 0, 0, 0, 0, 0, 0, 0,
        0, 0, 0, 0, 0, 0, 0, 0, 0, 0, 0, 0, 0, 0, 0, 0, 0, 0, 0, 0, 0, 0, 0, 0, 0, 0, 0, 0, 0, 0,
        0, 0, 0, 0,
    ],
};

impl<'r, 'h> Form<'r, 'h> {
    // The built-in form: give 0.
    pub fn give_zero() -> Form<'r, 'h>
        ensures { code result ≡ give_zero }
    {
        Form {
            rows: &ROWS,
            head: &HEAD,
        }
    }

    // Fills the form with lent rows and a lent head, or refuses them and leaves it. Either way its code
    // keeps the rules, as that of every form does.
    #[tactic(auto, using(crate::proofs::Keeps::form_keeps))]
    pub fn fill(&mut self, rows: &'r [Row], head: &'h Head) -> Result<(), FormFault>
        ensures result { result ≡ filled rows.now head.now }
        ensures form { Holds result self.old self.new rows.entry head.entry }
        ensures keeps { code_ok (code self.new) ≡ true }
    {
        if !form_ok(rows, head) {
            return Err(FormFault::NotAForm);
        }
        *self = Form { rows, head };
        Ok(())
    }
}

// Whether all numbers are below a limit.
fn all_below(items: &[u8], limit: u8) -> bool
    ensures { result ≡ all_below limit items.now }
{
    items.iter().all(|x| *x < limit)
}

// Whether each row keeps the rules, and the last one and no other is an ending. A `for`: it is proved by one line of
// invariant, and a chain by `all` is left open by the check.
fn block_ok(rows: &[Row], last: u8) -> bool
    ensures { result ≡ block_ok last rows.now }
{
    for (i, row) in rows.iter().enumerate() {
        if !(row_ok(row, last) & placed(row, i + 1 == rows.len())) {
            return false;
        }
    }
    true
}

// Whether the rows of the counted lengths are there and keep the rules. They are cut at `used`, which the
// limit of 512 rows needs anyway.
fn counted_ok(rows: &[Row], counts: &[u8], last: u8) -> bool
    ensures { result ≡ rows_ok last counts.now rows.now }
{
    let mut used = 0usize;
    for count in counts {
        let count = *count as usize;
        if count < 1 || count > 64 || used + count > 512 || used + count > rows.len() {
            return false;
        }
        if !block_ok(&rows[used..used + count], last) {
            return false;
        }
        used += count;
    }
    true
}

// Whether a head keeps the rules.
fn head_ok(head: &Head) -> bool
    ensures { result ≡ head_ok head.now }
{
    if head.blocks < 1 || head.blocks > 64 || head.params > 8 {
        return false;
    }
    let params = head.params as usize;
    let blocks = head.blocks as usize;
    let names = &head.names[..];
    let counts = &head.counts[..];
    all_below(&names[0..params], 64)
        & all_below(&names[params..], 1)
        & all_below(&counts[blocks..], 1)
}

// Whether rows and a head make a form.
fn form_ok(rows: &[Row], head: &Head) -> bool
    ensures { result ≡ form_ok rows.now head.now }
{
    if !head_ok(head) {
        return false;
    }
    let counts = &head.counts[..];
    counted_ok(rows, &counts[0..head.blocks as usize], head.blocks - 1)
}
