// Making a bank.
ghost use Rattle.std.specs.Prelude.{◌≡◌, IfOk};
ghost use Rattle.std.specs.Result.{result_err};
ghost use Rattle.banks.specs.Made.{table_fault};
ghost use Rattle.choices.specs.Banks.{any_meaning, NewVariables, new_nested, new_paired, framed_fault, NewFrame};

use crate::any_bank::{AnyBank, FramedFault};
use banks::{BankFault, Either, Frame, Nested, Paired, Variables};

impl AnyBank {
    // Variables of the declared widths.
    pub fn variables(widths: &[u8]) -> Result<AnyBank, BankFault>
        ensures fault { result_err result ≡ table_fault 64 widths.now }
        ensures made { IfOk result (λ b. NewVariables widths.now (any_meaning b)) }
    {
        let bank = Variables::new(widths)?;
        Ok(AnyBank {
            choice: Either::First(Either::First(bank)),
        })
    }

    // A nested bank made from a word. It and the next differ in the path to the choice, which a function over both
    // would take as an argument.
    pub fn nested(w: u64) -> AnyBank
        ensures { any_meaning result ≡ new_nested w }
    {
        AnyBank {
            choice: Either::First(Either::Second(Either::First(Nested::new(w)))),
        }
    }

    // A paired bank made from a word.
    pub fn paired(w: u64) -> AnyBank
        ensures { any_meaning result ≡ new_paired w }
    {
        AnyBank {
            choice: Either::First(Either::Second(Either::Second(Paired::new(w)))),
        }
    }

    // Slots of the declared widths over a copy of a bank.
    pub fn framed(&self, widths: &[u8]) -> Result<AnyBank, FramedFault>
        ensures fault { result_err result ≡ framed_fault (any_meaning self.now) widths.now }
        ensures made { IfOk result (λ b. NewFrame (any_meaning self.now) widths.now (any_meaning b)) }
    {
        match self.choice {
            Either::First(plain) => {
                let frame = Frame::new(plain, widths)?;
                Ok(AnyBank {
                    choice: Either::Second(Either::First(frame)),
                })
            }
            Either::Second(layers) => match layers {
                Either::First(inner) => {
                    let frame = Frame::new(inner, widths)?;
                    Ok(AnyBank {
                        choice: Either::Second(Either::Second(frame)),
                    })
                }
                Either::Second(_) => Err(FramedFault::Layers),
            },
        }
    }
}
