// What a name is.
ghost use Rattle.std.specs.Prelude.{◌≡◌, is_some, IfSome};
ghost use Rattle.texts.specs.Classes.{is_name};

use crate::classes::is_letter;

// Whether a word is a name.
fn is_name(word: &[u8]) -> bool
    ensures { result ≡ is_name word.now }
{
    !word.is_empty() && word.iter().all(|b| is_letter(*b))
}

// The word as a name, where it is one.
pub fn name_of(word: &[u8]) -> Option<&str>
    ensures test { is_some result ≡ is_name word.now }
    ensures value { IfSome result (λ s. s.now ≡ word.now) }
{
    if is_name(word) {
        std::str::from_utf8(word).ok()
    } else {
        None
    }
}
