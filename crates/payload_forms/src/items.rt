//! The items of payloads, read one after another.

ghost use Rattle.std.specs.Prelude.{◌≡◌, ℕ, ◌<◌, ◌^◌, List, Some, None, IfOk, length};
ghost use Rattle.std.specs.Str.{IsUtf8};
ghost use Rattle.std.specs.Option.{option_map};
ghost use Rattle.definitions.specs.Reading.{text_at};
ghost use Rattle.msgpack_fields.specs.Reading.{number_at};
ghost use Rattle.payload_forms.specs.Reading.{this_number_at, this_array_at, signed_at, id_at, author_at, version_called};
ghost use Rattle.payload_forms.specs.Seen.{Gives, version_seen};

use crate::digits::id_of;
use crate::kinds::PayloadFail;
use msgpack_fields::Reader;
use plain_types::{NoMemory, Text};
use std::alloc::Global;

/// The versions of payloads.
#[derive(Clone, Copy)]
pub(crate) enum Version {
    V0,
    V1,
}

/// The version of this name.
#[tactic(auto, unfolding(crate::specs::Reading::version_called))]
pub(crate) fn version_named(name: &[u8]) -> Option<Version>
    ensures { option_map version_seen result ≡ version_called name.now }
{
    if name == b"v0".as_slice() {
        Some(Version::V0)
    } else if name == b"v1".as_slice() {
        Some(Version::V1)
    } else {
        None
    }
}

/// A number from 0 to 2^64-1.
#[tactic(auto, unfolding(msgpack_fields::specs::Reading::number_at))]
#[inline(always)]
pub(crate) fn number(reader: &mut Reader<'_>) -> Result<u64, PayloadFail>
    ensures { Gives (λ n. n) reader.new.rest result (number_at reader.old.rest) }
{
    let value = reader.int()?;
    if value < 0 {
        Err(PayloadFail::Unread)
    } else {
        Ok(value as u64)
    }
}

/// This number.
#[tactic(auto, unfolding(crate::specs::Reading::this_number_at))]
pub(crate) fn this_number(reader: &mut Reader<'_>, wanted: u64) -> Result<(), PayloadFail>
    ensures { Gives (λ _. wanted) reader.new.rest result (this_number_at wanted reader.old.rest) }
{
    if number(reader)? == wanted {
        Ok(())
    } else {
        Err(PayloadFail::Unread)
    }
}

/// The header of an array of so many items.
#[tactic(auto, unfolding(crate::specs::Reading::this_array_at))]
pub(crate) fn this_array(reader: &mut Reader<'_>, count: u32) -> Result<(), PayloadFail>
    ensures { Gives (λ _. count) reader.new.rest result (this_array_at count reader.old.rest) }
{
    if reader.array()? == count {
        Ok(())
    } else {
        Err(PayloadFail::Unread)
    }
}

/// An integer of 64 bits with a sign.
#[tactic(auto, unfolding(crate::specs::Reading::signed_at))]
#[inline(always)]
pub(crate) fn signed(reader: &mut Reader<'_>) -> Result<i64, PayloadFail>
    ensures { Gives (λ z. z) reader.new.rest result (signed_at reader.old.rest) }
{
    let value = reader.int()?;
    match i64::try_from(value) {
        Ok(value) => Ok(value),
        Err(_) => Err(PayloadFail::Unread),
    }
}

/// The id of a command, in its digits.
#[tactic(auto, unfolding(crate::specs::Reading::id_at))]
pub(crate) fn id(reader: &mut Reader<'_>) -> Result<u128, PayloadFail>
    ensures read { Gives (λ id. id) reader.new.rest result (id_at reader.old.rest) }
    ensures fits { IfOk result (λ id. id < 2 ^ 128) }
{
    let digits = reader.text()?;
    match id_of(digits) {
        Some(id) => Ok(id),
        None => Err(PayloadFail::Unread),
    }
}

/// A text, which is copied.
#[inline(always)]
pub(crate) fn text(alloc: Global, reader: &mut Reader<'_>) -> Result<Text, PayloadFail>
    ensures { Gives (λ t. t) reader.new.rest result (text_at reader.old.rest) }
{
    let text = reader.text()?;
    Ok(copied(alloc, text)?)
}

/// A copy of a text that was read: its bytes are UTF-8, and nothing looks at them again.
fn copied(alloc: Global, text: &[u8]) -> Result<Text, NoMemory>
    requires utf8 { IsUtf8 text.now }
    requires short { length text.now < 2 ^ 32 }
    ensures { IfOk result (λ t. t ≡ text.now) }
{
    let bytes = Vec::from_slice(alloc, text)?;
    let inner = unsafe { String::from_utf8_unchecked(bytes) };
    Ok(Text::from_string(inner))
}

/// The author, or none, in a version that has a place for one.
#[tactic(auto, unfolding(crate::specs::Reading::author_at))]
pub(crate) fn author(
    alloc: Global,
    reader: &mut Reader<'_>,
    version: Version,
) -> Result<Option<Text>, PayloadFail>
    ensures { Gives (λ a. a) reader.new.rest result (author_at (version_seen version) reader.old.rest) }
{
    match version {
        Version::V0 => Ok(None),
        Version::V1 => match reader.nil_or_text()? {
            Some(text) => Ok(Some(copied(alloc, text)?)),
            None => Ok(None),
        },
    }
}
