//! Key texts: a wrapped content key, and the id of the key that it is wrapped under.

ghost use Rattle.std.specs.Prelude.{◌≡◌, ◌↔◌, ◌+◌, ◌<◌, ◌^◌, ◌++◌, IsTrue, length, IfOk, OnOk, string_bytes, string_len};
ghost use Rattle.paseto_seal.specs.KeyId.{key_id_of};
ghost use Rattle.paseto_seal.specs.Wrap.{wrap};
ghost use Rattle.record_seal.specs.Seals.{key_text};
ghost use Rattle.record_seal.specs.Unsealing.{ReadsKey};

use crate::fail::SealFail;
use crate::json_text::{read_json, text_member};
use crate::named::NamedKey;
use paseto_seal::{key_id, unwrap_key, wrap_key};
use plain_types::{NoMemory, Text};
use std::alloc::Global;

/// The length of a key text, in bytes: 146 of the wrap, 51 of the id, and 19 of JSON.
pub const KEY_TEXT_BYTES: usize = 146 + 51 + 19;

/// Appends a text.
fn push_text(to: &mut String, text: &Text) -> Result<(), NoMemory>
    ensures bytes { OnOk result (string_bytes to.new ≡ string_bytes to.old ++ text.now) }
    ensures len { OnOk result (string_len to.new ≡ string_len to.old + length text.now) }
{
    match str::from_utf8(text.as_bytes()) {
        Ok(text) => to.push_str(text)?,
        Err(_) => unreachable!(),
    }
    Ok(())
}

/// The key text of a content key that is wrapped under `key` with `nonce`.
pub fn write_key_text(
    alloc: Global,
    key: &[u8; 32],
    nonce: &[u8; 32],
    content_key: &[u8; 32],
) -> Result<Text, NoMemory>
    ensures { IfOk result (λ text. text ≡ key_text (wrap key.now nonce.now content_key.now) (key_id_of key.now)) }
{
    let wrapped = wrap_key(alloc, key, nonce, content_key)?;
    let id = key_id(alloc, key)?;
    let mut text = String::with_capacity(alloc, KEY_TEXT_BYTES)?;
    text.push_str("{\"wpk\":\"")?;
    push_text(&mut text, &wrapped)?;
    text.push_str("\",\"kid\":\"")?;
    push_text(&mut text, &id)?;
    text.push_str("\"}")?;
    Ok(Text::from_string(text))
}

/// Whether this is the id.
fn is_id(found: &str, id: &[u8; 51]) -> bool
    ensures { IsTrue result ↔ (found.now ≡ id.now) }
{
    found.as_bytes() == id.as_slice()
}

/// The content key in a key text that names `key`.
pub fn read_key(alloc: Global, key: &NamedKey<'_>, text: &[u8]) -> Result<[u8; 32], SealFail>
    requires { length text.now < 2 ^ 32 }
    ensures { ReadsKey key.now.key.now text.now result }
{
    let Some(value) = read_json(alloc, text)? else {
        return Err(SealFail::BadSeal);
    };
    let Some(wrapped) = text_member(&value, "wpk") else {
        return Err(SealFail::BadSeal);
    };
    let Some(found) = text_member(&value, "kid") else {
        return Err(SealFail::BadSeal);
    };
    if !is_id(found, &key.id) {
        let kid = Text::copied(alloc, found.as_bytes())?;
        return Err(SealFail::WrongKey { kid });
    }
    let content_key = unwrap_key(alloc, key.key, wrapped.as_bytes())?;
    Ok(content_key)
}
