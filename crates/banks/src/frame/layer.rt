// Making a frame, and the bank that it is.
ghost use Rattle.std.specs.Prelude.{◌≡◌, IfOk, MatchResult};
ghost use Rattle.banks.specs.Frame.{frame, over, slot_at, with_slots};
ghost use Rattle.banks.specs.Made.{frame_fault, Fresh};
ghost use Rattle.banks.specs.Meanings.{table_of};
ghost use Rattle.std.specs.Option.{option_map};
ghost use Rattle.std.specs.Result.{result_err};
ghost use Rattle.banks.specs.Frames.{frame_laws};

use crate::bank::Bank;
use crate::cells::Cells;
use crate::fault::BankFault;
use crate::frame::{Frame, Unframed};
use crate::loss::Loss;

impl<B: Bank> Frame<B> {
    // Slots of the declared widths, all 0, behind the names of a bank; or the bank again.
    pub fn new(below: B, widths: &[u8]) -> Result<Frame<B>, Unframed<B>>
        ensures fault { option_map (λ e. e.fault) (result_err result) ≡ frame_fault (B.Bank.kind.describe (B.Bank.meaning below)).names widths.now }
        ensures bank { MatchResult result (λ f. f.below ≡ below) (λ e. e.bank ≡ below) }
        ensures slots { IfOk result (λ f. Fresh widths.now (table_of f.slots)) }
        ensures described { IfOk result (λ f. (frame B.Bank.kind).describe (over B.Bank.kind (B.Bank.meaning f.below) (table_of f.slots)) ≡ with_slots (B.Bank.kind.describe (B.Bank.meaning below)) widths.now) }
    {
        match Cells::new(32, widths) {
            Err(fault) => Err(Unframed { bank: below, fault }),
            Ok(slots) => {
                if below.names() as usize + widths.len() > 64 {
                    return Err(Unframed {
                        bank: below,
                        fault: BankFault::Names,
                    });
                }
                Ok(Frame { below, slots })
            }
        }
    }
}

impl<B: Bank> Frame<B> {
    // The slot that a name is, where it is one: none comes from 64 on.
    fn slot(&self, a: u8) -> Option<u8>
        ensures { result ≡ slot_at (B.Bank.kind.describe (B.Bank.meaning self.now.below)).names a }
    {
        let n = self.below.names();
        if n <= a && a < 64 { Some(a - n) } else { None }
    }
}

// What is no slot is asked of the bank below, which has nothing from 64 on. Each method asks its own question of either:
// only a macro would say that once, and the gate takes no impl by a macro of ours.
impl<B: Bank> Bank for Frame<B> {
    ghost kind = { frame B.Bank.kind };

    ghost meaning = { λ f. over B.Bank.kind (B.Bank.meaning f.below) (table_of f.slots) };

    ghost shows = { frame_laws B.Bank.kind B.Bank.shows };

    fn names(&self) -> u8 {
        (self.below.names() + self.slots.len()).min(64)
    }

    fn width(&self, a: u8) -> u8 {
        match self.slot(a) {
            Some(slot) => self.slots.width(slot),
            None => self.below.width(a),
        }
    }

    fn touches(&self, a: u8, b: u8) -> bool {
        match self.slot(a) {
            Some(slot) => a == b && slot < self.slots.len(),
            None => self.below.touches(a, b),
        }
    }

    fn kept_over(&self, loss: Loss, a: u8) -> bool {
        match self.slot(a) {
            Some(slot) => slot < self.slots.len(),
            None => self.below.kept_over(loss, a),
        }
    }

    fn look(&self, a: u8) -> u64 {
        match self.slot(a) {
            Some(slot) => self.slots.look(slot),
            None => self.below.look(a),
        }
    }

    fn put(&mut self, a: u8, w: u64) {
        match self.slot(a) {
            Some(slot) => self.slots.put(slot, w),
            None => self.below.put(a, w),
        }
    }

    fn lose(&mut self, loss: Loss, w: u64) {
        self.below.lose(loss, w);
    }
}
