//! What the token of a record holds: a payload, in a JSON object.

ghost use Rattle.std.specs.Prelude.{◌≡◌, ◌<◌, ◌^◌, length, IfOk, string_bytes};
ghost use Rattle.record_seal.specs.Seals.{message_text};
ghost use Rattle.record_seal.specs.Unsealing.{ReadsMessage};

use crate::fail::SealFail;
use crate::json_text::{read_json, text_member};
use paseto_seal::{base64url_len, push_base64url, read_base64url};
use plain_types::{Bytes, NoMemory};
use std::alloc::Global;

/// The JSON around a payload, in bytes.
pub const MESSAGE_FRAME_BYTES: usize = 11;

/// The message of a payload, which is below 2^30 bytes.
pub fn write_message(alloc: Global, payload: &[u8]) -> Result<String, NoMemory>
    requires { length payload.now < 2 ^ 30 }
    ensures { IfOk result (λ text. string_bytes text ≡ message_text payload.now) }
{
    let room = base64url_len(payload.len()) + MESSAGE_FRAME_BYTES;
    let mut text = String::with_capacity(alloc, room)?;
    text.push_str("{\"data\":\"")?;
    push_base64url(&mut text, payload)?;
    text.push_str("\"}")?;
    Ok(text)
}

/// The payload of a message.
pub fn read_message(alloc: Global, text: &[u8]) -> Result<Bytes, SealFail>
    ensures { ReadsMessage text.now result }
{
    let Some(value) = read_json(alloc, text)? else {
        return Err(SealFail::BadSeal);
    };
    let Some(coded) = text_member(&value, "data") else {
        return Err(SealFail::BadSeal);
    };
    let payload = read_base64url(alloc, coded.as_bytes())?;
    Ok(Bytes::from_vec(payload))
}
