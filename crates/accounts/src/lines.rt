//! Lines of a text of accounts, and what one line tells.

ghost use Rattle.std.specs.Prelude.{◌≡◌, true};
ghost use Rattle.std.specs.Char.{is_ascii_digit};
ghost use Rattle.std.specs.List.{list_all};
ghost use Rattle.std.specs.Option.{option_map};
ghost use Rattle.std.specs.Str.Parse.{digits_value};
ghost use Rattle.accounts.specs.Accounts.{account_in, are_digits as tells_digits, before_first, behind_first, is_token as tells_token, is_visible as shows, owner_in};
ghost use Rattle.accounts.specs.Reading.{told_seen};

use std::str::from_utf8;

/// The greatest number of an owner, and the digits that may write one.
const MOST_OWNER: u32 = 1_023;

const MOST_OWNER_DIGITS: usize = 4;

/// The bytes that a token may have.
const MOST_TOKEN_BYTES: usize = 256;

/// The bytes before the first such byte, or all of them, and those behind it, or none.
pub fn split_at_first(bytes: &[u8], byte: u8) -> (&[u8], &[u8])
    ensures before { result.0.now ≡ before_first byte bytes.now }
    ensures behind { result.1.now ≡ behind_first byte bytes.now }
{
    match bytes.iter().position(|&b| b == byte) {
        Some(at) => (&bytes[..at], &bytes[at + 1..]),
        None => (bytes, &[]),
    }
}

fn all_digits(text: &[u8]) -> bool
    ensures { result ≡ list_all is_ascii_digit text.now }
{
    text.iter().all(|byte| byte.is_ascii_digit())
}

/// Whether these are 1 to 4 decimal digits.
fn are_digits(text: &[u8]) -> bool
    ensures { result ≡ tells_digits text.now }
{
    1 <= text.len() && text.len() <= MOST_OWNER_DIGITS && all_digits(text)
}

/// The number that 1 to 4 digits write.
fn value_of(digits: &[u8]) -> u32
    requires { tells_digits digits.now ≡ true }
    ensures { result ≡ digits_value 10 digits.now }
{
    match from_utf8(digits) {
        Ok(text) => match text.parse::<u32>() {
            Ok(value) => value,
            Err(_) => unreachable!(),
        },
        Err(_) => unreachable!(),
    }
}

/// The owner whose number these bytes are: 1 to 4 digits, at most 1,023.
fn owner_in(text: &[u8]) -> Option<u32>
    ensures { result ≡ owner_in text.now }
{
    if !are_digits(text) {
        return None;
    }
    let owner = value_of(text);
    if owner <= MOST_OWNER {
        Some(owner)
    } else {
        None
    }
}

fn is_visible(byte: u8) -> bool
    ensures { result ≡ shows byte }
{
    (b'!'..=b'~').contains(&byte)
}

fn all_visible(text: &[u8]) -> bool
    ensures { result ≡ list_all shows text.now }
{
    text.iter().all(|byte| is_visible(*byte))
}

/// Whether these are 1 to 256 visible characters of ASCII.
fn is_token(text: &[u8]) -> bool
    ensures { result ≡ tells_token text.now }
{
    1 <= text.len() && text.len() <= MOST_TOKEN_BYTES && all_visible(text)
}

/// The owner and the token that a line tells, which is given without its LF; `None` where it isn't of the form.
pub fn account_in(line: &[u8]) -> Option<(u32, &[u8])>
    ensures { option_map (λ told. told_seen told.0 told.1.now) result ≡ account_in line.now }
{
    let (owner, token) = split_at_first(line, b' ');
    let owner = owner_in(owner)?;
    if is_token(token) {
        Some((owner, token))
    } else {
        None
    }
}
