//! Texts that are put together.

ghost use Rattle.std.specs.Prelude.{◌≡◌, ◌++◌, codes, decimal, IfOk, OnOk, string_bytes};
ghost use Rattle.definitions.specs.Ids.{hyphenated};
ghost use Rattle.form_urlencoded.specs.Form.{byte_serialize};

use form_urlencoded::Serializer;
use plain_types::{NoMemory, Text};
use record_model::record_id_text;
use std::alloc::Global;

/// The length from which a text is not held.
const TEXT_END: usize = 1 << 32;

/// The text of a `String`.
///
/// # Errors
///
/// [`NoMemory`] for one of 2^32 bytes or more.
pub fn held_text(text: String) -> Result<Text, NoMemory>
    ensures { IfOk result (λ held. held ≡ string_bytes text) }
{
    if text.len() >= TEXT_END {
        return Err(NoMemory);
    }
    Ok(Text::from_string(text))
}

/// A text of its own.
///
/// # Errors
///
/// [`NoMemory`], also for a text of 2^32 bytes or more.
pub fn owned_text(alloc: Global, text: &str) -> Result<Text, NoMemory>
    ensures { IfOk result (λ own. own ≡ text.now) }
{
    if text.len() >= TEXT_END {
        return Err(NoMemory);
    }
    Text::copied(alloc, text.as_bytes())
}

/// The text as a `str`.
pub fn text_str(text: &Text) -> &str
    ensures { result.now ≡ text.now }
{
    match str::from_utf8(text.as_bytes()) {
        Ok(text) => text,
        Err(_) => unreachable!(),
    }
}

/// Appends a number in decimal digits.
pub fn put_number(to: &mut String, n: u64) -> Result<(), NoMemory>
    ensures { OnOk result (string_bytes to.new ≡ string_bytes to.old ++ decimal n) }
{
    let mut digits = itoa::Buffer::new();
    to.push_str(digits.format(n))?;
    Ok(())
}

/// Appends an id in groups with hyphens.
pub fn put_id(to: &mut String, id: u128) -> Result<(), NoMemory>
    ensures { OnOk result (string_bytes to.new ≡ string_bytes to.old ++ hyphenated id) }
{
    let text = record_id_text(id);
    match str::from_utf8(&text) {
        Ok(text) => to.push_str(text)?,
        Err(_) => unreachable!(),
    }
    Ok(())
}

/// The text as a web form writes it.
fn serialized(alloc: Global, text: &Text) -> Result<String, NoMemory>
    ensures { IfOk result (λ form. string_bytes form ≡ byte_serialize text.now) }
{
    let mut form = Serializer::new(String::new(alloc));
    form.append_key_only(text_str(text))?;
    Ok(form.finish())
}

/// Appends the text as a web form writes it: letters, digits and `*-._` as they are, a space as `+`, each other byte as `%`
/// and two hexadecimal digits.
pub fn put_serialized(alloc: Global, to: &mut String, text: &Text) -> Result<(), NoMemory>
    ensures { OnOk result (string_bytes to.new ≡ string_bytes to.old ++ byte_serialize text.now) }
{
    let form = serialized(alloc, text)?;
    to.push_str(form.as_str())?;
    Ok(())
}
