//! Looking into JSON.

ghost use Rattle.std.specs.Prelude.{◌≡◌, IfOk, option_map, option_and_then};
ghost use Rattle.serde_json.specs.View.{view};
ghost use Rattle.record_json.specs.Json.{json_of, text_under, number_under, id_under, id_of};

use plain_types::{NoMemory, Text};
use record_model::read_record_id;
use serde_json::{Category, Value};
use std::alloc::Global;

/// The length from which a text is not held.
const TEXT_END: usize = 1 << 32;

/// The value of the bytes, or `None` where they are no JSON.
pub fn read_json(alloc: Global, bytes: &[u8]) -> Result<Option<Value>, NoMemory>
    ensures { IfOk result (λ found. option_map view found ≡ json_of bytes.now) }
{
    match Value::from_slice(alloc, bytes) {
        Ok(value) => Ok(Some(value)),
        Err(error) => match error.classify() {
            Category::Memory => Err(NoMemory),
            _ => Ok(None),
        },
    }
}

/// The text under a name, where the value is an object in which a text stands there.
pub fn text_under<'v>(value: &'v Value, name: &str) -> Option<&'v str>
    ensures { option_map (λ text. text.now) result ≡ text_under name.now (view value.now) }
{
    value.get(name).and_then(Value::as_str)
}

/// The integer from 0 to 2^64-1 under a name.
pub fn number_under(value: &Value, name: &str) -> Option<u64>
    ensures { result ≡ number_under name.now (view value.now) }
{
    value.get(name).and_then(Value::as_u64)
}

/// The id under a name, in any form of a UUID.
pub fn id_under(value: &Value, name: &str) -> Option<u128>
    ensures { result ≡ id_under name.now (view value.now) }
{
    match text_under(value, name) {
        Some(text) => read_record_id(text.as_bytes()),
        None => None,
    }
}

/// A text of its own.
///
/// # Errors
///
/// [`NoMemory`], also for a text of 2^32 bytes or more.
pub fn owned_text(alloc: Global, text: &str) -> Result<Text, NoMemory>
    ensures { IfOk result (λ own. own ≡ text.now) }
{
    if text.len() >= TEXT_END {
        return Err(NoMemory);
    }
    Text::copied(alloc, text.as_bytes())
}
