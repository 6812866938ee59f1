//! What a query says.

ghost use Rattle.std.specs.Prelude.{◌≡◌, ◌≤◌, ◌^◌, IfOk, MatchOption, Some, true, string_bytes};
ghost use Rattle.std.specs.Char.{is_ascii_digit};
ghost use Rattle.std.specs.List.{list_all};
ghost use Rattle.std.specs.Option.{option_map};
ghost use Rattle.std.specs.Str.Parse.{digits_value};
ghost use Rattle.request_routes.specs.Queries.{are_digits, number_in, value_under as only_value};
ghost use Rattle.request_routes.specs.Routing.{id_under as id_told, number_under as number_told};

use form_urlencoded::parse;
use plain_types::{NoMemory, Text};
use record_model::read_record_id;
use std::alloc::Global;

/// The digits that a number may have.
const MOST_DIGITS: usize = 20;

/// The length from which a text is not held.
const TEXT_END: usize = 1 << 32;

/// The value of the one pair of this name; `None` where no pair or several have it.
///
/// # Errors
///
/// [`NoMemory`].
fn value_under(alloc: Global, name: &str, query: &[u8]) -> Result<Option<String>, NoMemory>
    ensures { IfOk result (λ value. option_map string_bytes value ≡ only_value name.now query.now) }
{
    let mut pairs = parse(alloc, query).into_owned();
    let mut found = None;
    while let Some(pair) = pairs.next() {
        let (called, value) = pair?;
        if called.as_str() == name {
            if found.is_some() {
                return Ok(None);
            }
            found = Some(value);
        }
    }
    Ok(found)
}

/// The text under a name.
///
/// # Errors
///
/// [`NoMemory`], also for a text of 2^32 bytes or more.
pub fn text_under(alloc: Global, name: &str, query: &[u8]) -> Result<Option<Text>, NoMemory>
    ensures { IfOk result (λ text. text ≡ only_value name.now query.now) }
{
    match value_under(alloc, name, query)? {
        Some(value) => {
            if value.len() >= TEXT_END {
                return Err(NoMemory);
            }
            Ok(Some(Text::from_string(value)))
        }
        None => Ok(None),
    }
}

/// The id under a name, in any form of a UUID.
///
/// # Errors
///
/// [`NoMemory`].
pub fn id_under(alloc: Global, name: &str, query: &[u8]) -> Result<Option<u128>, NoMemory>
    ensures { IfOk result (λ id. id ≡ id_told name.now query.now) }
{
    match value_under(alloc, name, query)? {
        Some(value) => Ok(read_record_id(value.as_str().as_bytes())),
        None => Ok(None),
    }
}

fn all_digits(text: &[u8]) -> bool
    ensures { result ≡ list_all is_ascii_digit text.now }
{
    text.iter().all(|byte| byte.is_ascii_digit())
}

/// Whether these are 1 to 20 decimal digits.
fn are_digits(text: &[u8]) -> bool
    ensures { result ≡ are_digits text.now }
{
    1 <= text.len() && text.len() <= MOST_DIGITS && all_digits(text)
}

/// The number that the digits write, if it is below 2^64.
fn value_of(digits: &str) -> Option<u64>
    requires { are_digits digits.now ≡ true }
    ensures { MatchOption result (2 ^ 64 ≤ digits_value 10 digits.now) (λ n. n ≡ digits_value 10 digits.now) }
{
    match digits.parse::<u64>() {
        Ok(number) => Some(number),
        Err(_) => None,
    }
}

/// The number of 1 to 20 digits, if it is below 2^64.
fn number_in(text: &str) -> Option<u64>
    ensures { result ≡ number_in text.now }
{
    if are_digits(text.as_bytes()) {
        value_of(text)
    } else {
        None
    }
}

/// The number under a name.
///
/// # Errors
///
/// [`NoMemory`].
pub fn number_under(alloc: Global, name: &str, query: &[u8]) -> Result<Option<u64>, NoMemory>
    ensures { IfOk result (λ number. number ≡ number_told name.now query.now) }
{
    match value_under(alloc, name, query)? {
        Some(value) => Ok(number_in(value.as_str())),
        None => Ok(None),
    }
}
