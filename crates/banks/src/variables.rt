// Variables: names of declared widths that touch only themselves and are never lost.
ghost use Rattle.std.specs.Prelude.{◌≡◌, IfOk};
ghost use Rattle.banks.specs.Made.{table_fault, Fresh};
ghost use Rattle.banks.specs.Meanings.{table_of};
ghost use Rattle.banks.specs.Variables.{variables};
ghost use Rattle.std.specs.Result.{result_err};
ghost use Rattle.banks.specs.Tables.{variables_laws};

use crate::bank::Bank;
use crate::cells::Cells;
use crate::fault::BankFault;
use crate::loss::Loss;

// 1 to 64 variables.
#[derive(Clone, Copy)]
pub struct Variables {
    cells: Cells,
}

impl Variables {
    // Variables of the declared widths, all 0.
    pub fn new(widths: &[u8]) -> Result<Variables, BankFault>
        ensures fault { result_err result ≡ table_fault 64 widths.now }
        ensures made { IfOk result (λ v. Fresh widths.now (table_of v.cells)) }
    {
        let cells = Cells::new(64, widths)?;
        Ok(Variables { cells })
    }
}

// Each method hands its question to the table, which is not itself a bank.
impl Bank for Variables {
    ghost kind = { variables };

    ghost meaning = { λ v. table_of v.cells };

    ghost shows = { variables_laws };

    fn names(&self) -> u8 {
        self.cells.len()
    }

    fn width(&self, a: u8) -> u8 {
        self.cells.width(a)
    }

    fn touches(&self, a: u8, b: u8) -> bool {
        a == b && a < self.cells.len()
    }

    fn kept_over(&self, _loss: Loss, a: u8) -> bool {
        a < self.cells.len()
    }

    fn look(&self, a: u8) -> u64 {
        self.cells.look(a)
    }

    fn put(&mut self, a: u8, w: u64) {
        self.cells.put(a, w);
    }

    fn lose(&mut self, _loss: Loss, _w: u64) {}
}
