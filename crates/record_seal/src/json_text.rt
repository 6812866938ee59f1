//! Looking into JSON.

ghost use Rattle.std.specs.Prelude.{◌≡◌, IfOk, MatchOption, option_map};
ghost use Rattle.serde_json.specs.Data.{Data};
ghost use Rattle.serde_json.specs.View.{view};
ghost use Rattle.record_seal.specs.Json.{ReadsJson, text_member};

use plain_types::NoMemory;
use serde_json::{Category, Value};
use std::alloc::Global;

/// The value of a text, or `None` where the text is no JSON.
pub fn read_json(alloc: Global, text: &[u8]) -> Result<Option<Value>, NoMemory>
    ensures { IfOk result (λ found. MatchOption found ((value : Data) → ¬ ReadsJson text.now value)
        (λ value. ReadsJson text.now (view value))) }
{
    match Value::from_slice(alloc, text) {
        Ok(value) => Ok(Some(value)),
        Err(error) => match error.classify() {
            Category::Memory => Err(NoMemory),
            _ => Ok(None),
        },
    }
}

/// The text under a name, where the value is an object in which it stands, as a text.
pub fn text_member<'v>(value: &'v Value, name: &str) -> Option<&'v str>
    ensures { option_map (λ text. text.now) result ≡ text_member name.now (view value.now) }
{
    value.get(name).and_then(Value::as_str)
}
