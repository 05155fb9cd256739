// Whether rows and forms fit a bank.
ghost use Rattle.std.specs.Prelude.{◌≡◌, ◌≤◌, length};
ghost use Rattle.banks.specs.Fits.{names_known, widths_fit, row_fits, unfit_row, unfit_parameter, unfit};
ghost use Rattle.forms.specs.View.{code};
ghost use Rattle.std.specs.Result.{result_err};

use crate::bank::Bank;
use crate::misfit::{FitFault, Side};
use crate::words::low_bytes;
use forms::{Form, Row};

// Whether all names of a row are among the first n.
fn names_known(row: &Row, n: u8) -> bool
    ensures { result ≡ names_known n row.now }
{
    match row.kind {
        0 | 3 | 4 | 6 => row.d < n && row.a < n,
        1 => row.d < n,
        2 => row.d < n && row.a < n && row.b < n,
        5 => row.a < n && row.b < n,
        8 | 10 => row.a < n,
        _ => true,
    }
}

// Whether the widths of a row are as its kind asks.
fn widths_fit<B: Bank>(bank: &B, row: &Row) -> bool
    ensures { result ≡ widths_fit (B.Bank.kind.describe (B.Bank.meaning bank.now)) row.now }
{
    let width = bank.width(row.d);
    match row.kind {
        0 => width == bank.width(row.a),
        1 => low_bytes(row.c, width) == row.c,
        2 => width == bank.width(row.a) && width == bank.width(row.b),
        _ => true,
    }
}

// Whether a row fits a bank.
pub fn row_fits<B: Bank>(bank: &B, row: &Row) -> bool
    ensures { result ≡ row_fits (B.Bank.kind.describe (B.Bank.meaning bank.now)) row.now }
{
    names_known(row, bank.names()) && widths_fit(bank, row)
}

// The first row of a block that does not fit. Side and block are arguments since the fault names them; nothing else
// here uses them.
fn rows_fit<B: Bank>(bank: &B, rows: &[Row], side: Side, block: u8) -> Result<(), FitFault>
    requires { length rows.now ≤ 64 }
    ensures { result_err result ≡ unfit_row (B.Bank.kind.describe (B.Bank.meaning bank.now)) side block 0 rows.now }
{
    for (i, row) in rows.iter().enumerate() {
        if !row_fits(bank, row) {
            // at most 63, which is proved: `try_from` would add a fault that cannot come
            return Err(FitFault::AtRow(side, block, i as u8));
        }
    }
    Ok(())
}

// The first parameter that is no name of the bank.
fn parameters_fit<B: Bank>(bank: &B, names: &[u8], side: Side) -> Result<(), FitFault>
    requires { length names.now ≤ 8 }
    ensures { result_err result ≡ unfit_parameter (B.Bank.kind.describe (B.Bank.meaning bank.now)) side 0 names.now }
{
    let n = bank.names();
    for (i, name) in names.iter().enumerate() {
        if *name >= n {
            // at most 7, as above
            return Err(FitFault::AtParameter(side, i as u8));
        }
    }
    Ok(())
}

// Whether a form, which stands on a side of a pair, fits a bank; if not, the first row or parameter that
// does not. Rows come before parameters.
pub fn form_fits<B: Bank>(bank: &B, form: &Form, side: Side) -> Result<(), FitFault>
    ensures { result_err result ≡ unfit (B.Bank.kind.describe (B.Bank.meaning bank.now)) side (code form.now) }
{
    // a form holds no list of its blocks: each is asked for by its number
    for block in 0..form.blocks() {
        rows_fit(bank, form.block(block), side, block)?;
    }
    parameters_fit(bank, form.parameters(), side)
}
