// What a caller is told when something is refused.
ghost use Rattle.std.specs.Prelude.{◌≡◌};
ghost use Rattle.numbers.specs.Refusals.{at_place};

// A refusal: its number, the side it speaks of (1 before, 2 after, 0 neither), the place (a block or a
// byte), and a row of each side. Fields that a refusal does not name are 0. Plain numbers, not enums:
// customers' tools compare this record.
#[derive(Clone, Copy, PartialEq, Eq, Debug)]
pub struct Refusal {
    pub number: u8,
    pub side: u8,
    pub place: usize,
    pub before: u8,
    pub after: u8,
}

impl Refusal {
    // A refusal that names a place and nothing else.
    pub fn at(number: u8, place: usize) -> Refusal
        ensures { result ≡ at_place number place }
    {
        Refusal {
            number,
            side: 0,
            place,
            before: 0,
            after: 0,
        }
    }
}
