//! The text of a key: 64 hexadecimal digits of either case, then nothing, LF, or CR LF.
//!
//! The model is the list of the text's bytes, and `specs/KeyText` says which key it tells, if any: exactly that is
//! answered. A key stands in an array of 32 bytes, and no copy of it or of its text is made. Stands on the kit's `hex` for
//! the digits.
#![tactic(auto)]

ghost use Rattle.std.specs.Prelude.{◌≡◌, length};
ghost use Rattle.key_text.specs.KeyText.{is_line_end, digits_key, key_of};

use hex::FromHex;

/// The number of hexadecimal digits of a key.
const DIGITS: usize = 64;

/// The key that the text tells, if it tells one. It takes no memory.
pub fn read_key_text(text: &[u8]) -> Option<[u8; 32]>
    ensures { result ≡ key_of text.now }
{
    if text.len() < DIGITS {
        return None;
    }
    let (digits, rest) = text.split_at(DIGITS);
    if !is_line_end(rest) {
        return None;
    }
    key_of_digits(digits)
}

fn is_line_end(rest: &[u8]) -> bool
    ensures { result ≡ is_line_end rest.now }
{
    rest.is_empty() || rest == b"\n".as_slice() || rest == b"\r\n".as_slice()
}

fn key_of_digits(digits: &[u8]) -> Option<[u8; 32]>
    ensures { result ≡ digits_key digits.now }
{
    <[u8; 32] as FromHex>::from_hex(digits).ok()
}

#[cfg(test)]
mod tests;
