// How rows, refusals and the counts of a form are printed.
ghost use Rattle.std.specs.Prelude.{◌≡◌, Some, map};
ghost use Rattle.forms.specs.View.{code};
ghost use Rattle.texts.specs.Counts.{counts_of};
ghost use Rattle.texts.specs.Labels.{label, operations, kinds, refusal_text, counts_text, row_text};

use forms::{Form, Row};
use numbers::Refusal;
use std::fmt;

// The operations, each at its number.
const OPERATIONS: [&str; 12] = [
    "add",
    "subtract",
    "multiply",
    "and",
    "or",
    "xor",
    "shl",
    "shr",
    "divide",
    "remainder",
    "less",
    "equal",
];

// The kinds of rows, each at its number.
const KINDS: [&str; 11] = [
    "move", "constant", "operate", "fit", "load", "store", "call", "go", "choose", "pause", "give",
];

// The name at a number, or a question mark past the end.
fn label(names: &[&'static str], n: u8) -> &'static str
    ensures { result.now ≡ label (map (λ s. s.now) names.now) n }
{
    names.get(usize::from(n)).copied().unwrap_or("?")
}

// The name of an operation.
fn operation_name(operation: u8) -> &'static str
    ensures { result.now ≡ label operations operation }
{
    label(&OPERATIONS, operation)
}

// The name of a kind of rows.
fn kind_name(kind: u8) -> &'static str
    ensures { result.now ≡ label kinds kind }
{
    label(&KINDS, kind)
}

// A refusal as it is printed.
#[derive(Clone, Copy)]
pub struct RefusalText(pub Refusal);

impl fmt::Display for RefusalText {
    ghost output = { λ x. Some (refusal_text x.0) };

    fn fmt<W: fmt::Write>(&self, f: &mut fmt::Formatter<W>) -> fmt::Result {
        let Refusal {
            number,
            side,
            place,
            before,
            after,
        } = self.0;
        write!(
            f,
            "refused {number} side {side} place {place} rows {before} {after}"
        )
    }
}

// A row as it is printed: its kind, and its fields in the order in which they are written.
#[derive(Clone, Copy)]
pub struct RowText(pub Row);

impl fmt::Display for RowText {
    ghost output = { λ x. row_text x.0 };

    fn fmt<W: fmt::Write>(&self, f: &mut fmt::Formatter<W>) -> fmt::Result {
        let Row {
            kind,
            o,
            d,
            a,
            b,
            k,
            c,
            t,
            f: otherwise,
        } = self.0;
        let name = kind_name(kind);
        match kind {
            0 | 3 | 4 => write!(f, "{name} {d} {a}"),
            1 => write!(f, "{name} {d} 0x{c:x}"),
            2 => write!(f, "{name} {} {d} {a} {b}", operation_name(o)),
            5 => write!(f, "{name} {a} {b}"),
            6 => write!(f, "{name} {k} {d} {a}"),
            7 | 9 => write!(f, "{name} {t}"),
            8 => write!(f, "{name} {a} {t} {otherwise}"),
            _ => write!(f, "{name} {a}"),
        }
    }
}

// How much a form has.
#[derive(Clone, Copy)]
pub struct Counts {
    blocks: u8,
    parameters: usize,
    rows: usize,
}

impl Counts {
    // How much a form has.
    pub fn of(form: &Form) -> Counts
        ensures { result ≡ counts_of (code form.now) }
    {
        Counts {
            blocks: form.blocks(),
            parameters: form.parameters().len(),
            rows: form.row_count(),
        }
    }
}

impl fmt::Display for Counts {
    ghost output = { λ x. Some (counts_text x.blocks x.parameters x.rows) };

    fn fmt<W: fmt::Write>(&self, f: &mut fmt::Formatter<W>) -> fmt::Result {
        let Counts {
            blocks,
            parameters,
            rows,
        } = *self;
        write!(f, "{blocks} blocks, {parameters} parameters, {rows} rows")
    }
}
