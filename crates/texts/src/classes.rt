// Classes of bytes, and how far one reaches at the front of a text.
ghost use Rattle.std.specs.Prelude.{◌≡◌, ℕ, ◌≤◌, Bool, length};
ghost use Rattle.std.specs.List.{prefix_len};
ghost use Rattle.texts.specs.Classes.{blank, letter};

// Whether a byte separates words.
pub(crate) fn is_blank(b: u8) -> bool
    ensures { result ≡ blank b }
{
    matches!(b, b' ' | b'\t' | b'\r')
}

// Whether names may have a byte.
pub(crate) fn is_letter(b: u8) -> bool
    ensures { result ≡ letter b }
{
    matches!(b, b'a'..=b'z' | b'A'..=b'Z' | b'0'..=b'9' | b'_' | b'-')
}

// How many bytes at the front are of a class.
pub(crate) fn front<F: Fn(u8) -> bool>(bytes: &[u8], holds: F) -> usize
    requires { F.IsAlwaysCallable holds }
    ensures count { (class : ℕ → Bool) → ((b : ℕ) (r : Bool) → F.post holds b r → r ≡ class b) → result ≡ prefix_len class bytes.now }
    ensures within { result ≤ length bytes.now }
{
    bytes.iter().take_while(|b| holds(**b)).count()
}
