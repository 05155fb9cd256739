// What the laws say of every bank, whatever its kind. Bodies that look alike make one change and look; each contract
// states another law.
ghost use Rattle.std.specs.Prelude.{◌≡◌, true, false};
ghost use Rattle.banks.specs.Words.{lowest};

use crate::bank::Bank;
use crate::loss::Loss;

// A put is seen: the name then holds the lowest bytes of the word, as many as it has. (A number that is no
// name has none, and holds 0.)
pub fn look_after_put<B: Bank>(bank: &mut B, name: u8, w: u64) -> u64
    ensures seen { result ≡ lowest w ((B.Bank.kind.describe (B.Bank.meaning bank.old)).width name) }
    ensures bank { B.Bank.meaning bank.new ≡ B.Bank.kind.put (B.Bank.meaning bank.old) name w }
{
    bank.put(name, w);
    bank.look(name)
}

// A put leaves what another name holds, unless it touches that.
pub fn look_beside_put<B: Bank>(bank: &mut B, a: u8, w: u64, b: u8) -> u64
    ensures result { result ≡ B.Bank.kind.look (B.Bank.kind.put (B.Bank.meaning bank.old) a w) b }
    ensures left { (B.Bank.kind.describe (B.Bank.meaning bank.old)).touches a b ≡ false → result ≡ B.Bank.kind.look (B.Bank.meaning bank.old) b }
    ensures bank { B.Bank.meaning bank.new ≡ B.Bank.kind.put (B.Bank.meaning bank.old) a w }
{
    bank.put(a, w);
    bank.look(b)
}

// Touching is mutual.
pub fn touch_each_other<B: Bank>(bank: &B, a: u8, b: u8) -> bool
    ensures there { result ≡ (B.Bank.kind.describe (B.Bank.meaning bank.now)).touches a b }
    ensures back { result ≡ (B.Bank.kind.describe (B.Bank.meaning bank.now)).touches b a }
{
    bank.touches(a, b)
}

// A loss leaves what a name holds that is kept over it.
pub fn look_over<B: Bank>(bank: &mut B, loss: Loss, w: u64, name: u8) -> u64
    ensures result { result ≡ B.Bank.kind.look (B.Bank.kind.lose (B.Bank.meaning bank.old) loss w) name }
    ensures kept { (B.Bank.kind.describe (B.Bank.meaning bank.old)).kept_over loss name ≡ true → result ≡ B.Bank.kind.look (B.Bank.meaning bank.old) name }
    ensures bank { B.Bank.meaning bank.new ≡ B.Bank.kind.lose (B.Bank.meaning bank.old) loss w }
{
    bank.lose(loss, w);
    bank.look(name)
}
