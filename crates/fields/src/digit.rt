// The value of a digit.
ghost use Rattle.std.specs.Prelude.{◌≡◌};
ghost use Rattle.fields.specs.Digit.{among, digit_of, nibble_of, below};

// A decimal digit's value.
#[tactic(auto, unfolding(crate::specs::Digit::among))]
pub(crate) fn digit(b: u8) -> Option<u32>
    ensures { result ≡ below 256 (digit_of b) }
{
    if b.is_ascii_digit() {
        Some(u32::from(b - b'0'))
    } else {
        None
    }
}

// The value of a byte among those from `first` to `last`, of which the first counts as `v`; 256 for any other byte.
#[tactic(auto, unfolding(crate::specs::Digit::among))]
fn among(b: u8, first: u8, last: u8, v: u8) -> u32
    ensures { result ≡ among first last v b }
{
    if b < first || last < b {
        256
    } else {
        u32::from(v) + u32::from(b - first)
    }
}

// The value of a lower-case digit, and 256 for any other byte. Which digit a byte is cannot be foretold: an Option would be asked by a jump that the
// processor guesses wrong, and a lesser number takes none.
#[tactic(auto, unfolding(crate::specs::Digit::nibble_of))]
pub(crate) fn nibble(b: u8) -> u32
    ensures { result ≡ nibble_of b }
{
    among(b, b'0', b'9', 0).min(among(b, b'a', b'f', 10))
}
