//! Lengths as digits.

ghost use Rattle.std.specs.Prelude.{◌≡◌};
ghost use Rattle.http_wire.specs.Fields.{length_in as told};

use crate::limits::MOST_LENGTH_DIGITS;

/// The number that 1 to 10 digits write; `None` for any other text, also for one with a sign.
pub fn length_in(text: &[u8]) -> Option<u64>
    ensures { result ≡ told text.now }
{
    if text.is_empty() {
        return None;
    }
    if text.len() > MOST_LENGTH_DIGITS {
        return None;
    }
    let mut length = 0;
    for byte in text {
        if !byte.is_ascii_digit() {
            return None;
        }
        length = length * 10 + u64::from(*byte - b'0');
    }
    Some(length)
}
