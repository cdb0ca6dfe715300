// Numbers in decimal digits.
ghost use Rattle.std.specs.Prelude.{◌≡◌, ℕ, MatchOption};
ghost use Rattle.listing.specs.Numerals.{Writes};

// A number has at most so many digits.
const DIGITS: usize = 5;

// The number that these bytes write in one to five digits, at most 65,535; none for any other bytes.
pub(crate) fn number(text: &[u8]) -> Option<u16>
    ensures { MatchOption result ((n : ℕ) → Writes text.now n → ⊥) (Writes text.now) }
{
    if text.is_empty() || text.len() > DIGITS {
        return None;
    }
    let mut value = 0;
    for &byte in text {
        value = 10 * value + char::from(byte).to_digit(10)?;
    }
    u16::try_from(value).ok()
}
