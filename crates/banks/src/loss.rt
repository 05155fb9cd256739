// The losses of a bank.

// When what is not kept is lost.
#[derive(Clone, Copy, PartialEq, Eq, Debug)]
pub enum Loss {
    Call,
    Pause,
}
