// Words, by their bytes.
ghost use Rattle.std.specs.Prelude.{◌≡◌};
ghost use Rattle.banks.specs.Words.{lowest};

// The lowest bytes of a word, so many as the width says.
pub fn low_bytes(w: u64, width: u8) -> u64
    ensures { result ≡ lowest w width }
{
    if width >= 8 {
        w
    } else {
        w & ((1 << (8 * width)) - 1)
    }
}
