//! What is said of an option.

ghost use Rattle.std.specs.Prelude.{◌≡◌, ◌≤◌, ◌^◌, IfOk, MatchOption, true, false, eqb};
ghost use Rattle.std.specs.Char.{is_ascii_digit};
ghost use Rattle.std.specs.List.{list_all, starts_with};
ghost use Rattle.std.specs.Str.Parse.{digits_value};
ghost use Rattle.search_words.specs.Queries.{are_digits, behind, filter_called, mode_called, number_in, short_text};

use plain_types::{NoMemory, Text};
use record_model::{Filter, Mode};
use std::alloc::Global;

/// The bytes that a text may have that is looked for.
const MOST_TEXT_BYTES: usize = 262_144;

/// The digits that a number may have.
const MOST_DIGITS: usize = 10;

pub fn mode_called(value: &str) -> Option<Mode>
    ensures { result ≡ mode_called value.now }
{
    if value == "prefix" {
        return Some(Mode::Prefix);
    }
    if value == "substring" {
        return Some(Mode::Substring);
    }
    None
}

/// The text, unless it is too long.
///
/// # Errors
///
/// [`NoMemory`].
pub fn short_text(alloc: Global, text: &str) -> Result<Option<Text>, NoMemory>
    ensures { IfOk result (λ t. t ≡ short_text text.now) }
{
    if text.len() > MOST_TEXT_BYTES {
        return Ok(None);
    }
    Ok(Some(Text::copied(alloc, text.as_bytes())?))
}

/// What stands behind these first bytes, if it begins with them.
fn behind<'a>(first: &str, value: &'a str) -> Option<&'a str>
    ensures { MatchOption result (starts_with eqb value.entry.now first.now ≡ false) (λ x. (starts_with eqb value.entry.now first.now ≡ true) × (x.now ≡ behind first.now value.entry.now)) }
{
    value.strip_prefix(first)
}

/// The filter that is called so, if there is one.
///
/// # Errors
///
/// [`NoMemory`].
pub fn filter_called(alloc: Global, value: &str) -> Result<Option<Filter>, NoMemory>
    ensures { IfOk result (λ f. f ≡ filter_called value.now) }
{
    if value == "global" {
        return Ok(Some(Filter::Global));
    }
    if let Some(host) = behind("host:", value) {
        return Ok(short_text(alloc, host)?.map(Filter::Host));
    }
    if let Some(session) = behind("session:", value) {
        return Ok(short_text(alloc, session)?.map(Filter::Session));
    }
    if let Some(directory) = behind("directory:", value) {
        return Ok(short_text(alloc, directory)?.map(Filter::Directory));
    }
    Ok(None)
}

/// 1 to 10 decimal digits.
fn are_digits(text: &[u8]) -> bool
    ensures { result ≡ are_digits text.now }
{
    1 <= text.len() && text.len() <= MOST_DIGITS && all_digits(text)
}

fn all_digits(text: &[u8]) -> bool
    ensures { result ≡ list_all is_ascii_digit text.now }
{
    text.iter().all(|byte| byte.is_ascii_digit())
}

/// The number that the digits write, if it is below 2^32.
fn value_of(digits: &str) -> Option<u32>
    requires { are_digits digits.now ≡ true }
    ensures { MatchOption result (2 ^ 32 ≤ digits_value 10 digits.now) (λ n. n ≡ digits_value 10 digits.now) }
{
    match digits.parse::<u32>() {
        Ok(number) => Some(number),
        Err(_) => None,
    }
}

/// The number of 1 to 10 digits, if it is one from `least` to `most`.
pub fn number_in(least: u32, most: u32, text: &str) -> Option<u32>
    ensures { result ≡ number_in least most text.now }
{
    if !are_digits(text.as_bytes()) {
        return None;
    }
    let number = value_of(text)?;
    if least <= number && number <= most {
        Some(number)
    } else {
        None
    }
}
