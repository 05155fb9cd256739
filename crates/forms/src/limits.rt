// Which fields a kind of row has, and how far each goes.
ghost use Rattle.std.specs.Prelude.{◌≡◌};
ghost use Rattle.forms.specs.Rows.{limits_of, within, within_word, fields_ok, row_ok, placed_ok};

use crate::row::Row;

// The highest number of each field, or none where the kind lacks it; and whether there is a constant,
// which may be any word.
#[derive(Clone, Copy)]
pub(crate) struct Limits {
    pub o: Option<u8>,
    pub d: Option<u8>,
    pub a: Option<u8>,
    pub b: Option<u8>,
    pub k: Option<u8>,
    pub c: bool,
    pub t: Option<u8>,
    pub f: Option<u8>,
}

const NONE: Limits = Limits {
    o: None,
    d: None,
    a: None,
    b: None,
    k: None,
    c: false,
    t: None,
    f: None,
};

const NAME: Option<u8> = Some(63);

// The fields of a kind, a number of the format, in a form whose last block is `last`.
pub(crate) fn limits_of(kind: u8, last: u8) -> Limits
    ensures { result ≡ limits_of kind last }
{
    match kind {
        0 | 3 | 4 => Limits {
            d: NAME,
            a: NAME,
            ..NONE
        },
        1 => Limits {
            d: NAME,
            c: true,
            ..NONE
        },
        2 => Limits {
            o: Some(11),
            d: NAME,
            a: NAME,
            b: NAME,
            ..NONE
        },
        5 => Limits {
            a: NAME,
            b: NAME,
            ..NONE
        },
        6 => Limits {
            k: Some(255),
            d: NAME,
            a: NAME,
            ..NONE
        },
        7 | 9 => Limits {
            t: Some(last),
            ..NONE
        },
        8 => Limits {
            a: NAME,
            t: Some(last),
            f: Some(last),
            ..NONE
        },
        10 => Limits { a: NAME, ..NONE },
        _ => NONE,
    }
}

// Whether a field stays within its limit; one that is not there is 0.
fn inside(value: u8, highest: Option<u8>) -> bool
    ensures { result ≡ within highest value }
{
    value <= highest.unwrap_or(0)
}

// The same of a constant, which is any word: it has no limit, so it is not one of the fields above.
fn inside_word(value: u64, there: bool) -> bool
    ensures { result ≡ within_word there value }
{
    there || value == 0
}

// Whether each field of a row stays within its limit.
fn fields_ok(row: &Row, l: &Limits) -> bool
    ensures { result ≡ fields_ok l.now row.now }
{
    inside(row.o, l.o)
        & inside(row.d, l.d)
        & inside(row.a, l.a)
        & inside(row.b, l.b)
        & inside(row.k, l.k)
        & inside_word(row.c, l.c)
        & inside(row.t, l.t)
        & inside(row.f, l.f)
}

// Whether a row keeps the rules in a form whose last block is `last`.
pub(crate) fn row_ok(row: &Row, last: u8) -> bool
    ensures { result ≡ row_ok last row.now }
{
    row.kind <= 10 && fields_ok(row, &limits_of(row.kind, last))
}

// Whether a row may stand where it does: the last of a block is an ending, and no other is. That it is the last is
// a fact of its place, with no value beside it.
pub(crate) fn placed(row: &Row, last: bool) -> bool
    ensures { result ≡ placed_ok last row.now }
{
    if last { row.kind >= 7 } else { row.kind < 7 }
}
