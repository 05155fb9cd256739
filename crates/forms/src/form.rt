// The view: a form borrows the rows and the head that were read, and holds nothing of its own.
ghost use Rattle.std.specs.Prelude.{◌≡◌, true};
ghost use Rattle.forms.specs.Rules.{form_ok};

mod fill;
mod parts;

use crate::row::{Head, Row};

// A form: lent rows and a lent head that keep the rules of forms. Clauses say what it means by `code`: a type
// that borrows and is Copy can have no model.
#[derive(Clone, Copy)]
pub struct Form<'r, 'h> {
    rows: &'r [Row],
    head: &'h Head,
    ghost sound: { form_ok rows.now head.now ≡ true },
}
