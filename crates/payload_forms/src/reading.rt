//! Payloads as they are read, from the left over the slice.
//!
//! What hands a whole command on is inlined, so that it is made where it is to stand, and isn't moved four times.

ghost use Rattle.std.specs.Prelude.{◌≡◌, ◌≤◌, ℕ, List, length, Some, None, Err, IfOk};
ghost use Rattle.payload_rules.specs.Payloads as rules;
ghost use Rattle.payload_forms.specs.Reading.{command_at, key_value_at, no_value_at, key_at, alias_value_at, no_alias_at, alias_at, form_at};
ghost use Rattle.payload_forms.specs.Seen.{GivesWhole, payload_seen, version_seen};
ghost use Rattle.payload_forms.specs.Writing.{text_total};

use crate::commands::read_history;
use crate::items::{Version, id, number, text, this_array, version_named};
use crate::kinds::{Payload, PayloadFail};
use msgpack_fields::Reader;
use std::alloc::Global;

/// Reads the bytes of a record with this tag and version, to their last one. Every spelling of an item is taken
/// (MessagePack, "Formats"); an item that is too long for what stands there is none. The texts that are kept have no more
/// bytes than `bytes`, and memory is taken once for each.
///
/// # Errors
///
/// - [`PayloadFail::Unread`] exactly where no payload of this tag and version has these bytes;
/// - [`PayloadFail::NoMemory`].
pub fn read_payload(
    alloc: Global,
    tag: &[u8],
    version: &[u8],
    bytes: &[u8],
) -> Result<Payload, PayloadFail>
    ensures read { IfOk result (λ p. rules.PayloadOf tag.now version.now bytes.now (payload_seen p)) }
    ensures short { IfOk result (λ p. text_total (payload_seen p) ≤ length bytes.now) }
    ensures unread { result ≡ Err PayloadFail.Unread → (p : rules.Payload) → rules.PayloadOf tag.now version.now bytes.now p → ⊥ }
{
    match version_named(version) {
        Some(version) => read_form(alloc, version, tag, bytes),
        None => Err(PayloadFail::Unread),
    }
}

#[tactic(auto, unfolding(crate::specs::Reading::form_at))]
#[inline(always)]
fn read_form(
    alloc: Global,
    version: Version,
    tag: &[u8],
    bytes: &[u8],
) -> Result<Payload, PayloadFail>
    ensures { GivesWhole payload_seen result (form_at (version_seen version) tag.now bytes.now) }
{
    if tag == b"history".as_slice() {
        read_command(alloc, version, bytes)
    } else if tag == b"kv".as_slice() {
        read_key(alloc, version, bytes)
    } else if tag == b"dotfiles-shell-alias".as_slice() {
        read_alias(alloc, version, bytes)
    } else {
        Err(PayloadFail::Unread)
    }
}

#[tactic(auto, unfolding(crate::specs::Reading::command_at))]
#[inline(always)]
fn read_command(alloc: Global, version: Version, bytes: &[u8]) -> Result<Payload, PayloadFail>
    ensures { GivesWhole payload_seen result (command_at (version_seen version) bytes.now) }
{
    let mut reader = Reader::new(bytes);
    match number(&mut reader)? {
        0 => {
            let held = reader.bin()?;
            reader.end()?;
            Ok(Payload::HistoryCreate(read_history(alloc, version, held)?))
        }
        1 => {
            let id = id(&mut reader)?;
            reader.end()?;
            Ok(Payload::HistoryDelete(id))
        }
        _ => Err(PayloadFail::Unread),
    }
}

#[tactic(auto, unfolding(crate::specs::Reading::key_at))]
fn read_key(alloc: Global, version: Version, bytes: &[u8]) -> Result<Payload, PayloadFail>
    ensures { GivesWhole payload_seen result (key_at (version_seen version) bytes.now) }
{
    let mut reader = Reader::new(bytes);
    match version {
        Version::V0 => read_key_value(alloc, &mut reader),
        Version::V1 => match number(&mut reader)? {
            0 => read_key_value(alloc, &mut reader),
            1 => read_no_value(alloc, &mut reader),
            _ => Err(PayloadFail::Unread),
        },
    }
}

#[tactic(auto, unfolding(crate::specs::Reading::key_value_at))]
fn read_key_value(alloc: Global, reader: &mut Reader<'_>) -> Result<Payload, PayloadFail>
    ensures { GivesWhole payload_seen result (key_value_at reader.old.rest) }
{
    this_array(reader, 3)?;
    let namespace = text(alloc, reader)?;
    let key = text(alloc, reader)?;
    let value = text(alloc, reader)?;
    reader.end()?;
    Ok(Payload::KvSet {
        namespace,
        key,
        value,
    })
}

#[tactic(auto, unfolding(crate::specs::Reading::no_value_at))]
fn read_no_value(alloc: Global, reader: &mut Reader<'_>) -> Result<Payload, PayloadFail>
    ensures { GivesWhole payload_seen result (no_value_at reader.old.rest) }
{
    this_array(reader, 2)?;
    let namespace = text(alloc, reader)?;
    let key = text(alloc, reader)?;
    reader.end()?;
    Ok(Payload::KvDelete { namespace, key })
}

#[tactic(auto, unfolding(crate::specs::Reading::alias_at))]
fn read_alias(alloc: Global, version: Version, bytes: &[u8]) -> Result<Payload, PayloadFail>
    ensures { GivesWhole payload_seen result (alias_at (version_seen version) bytes.now) }
{
    let mut reader = Reader::new(bytes);
    match version {
        Version::V0 => match number(&mut reader)? {
            0 => read_alias_value(alloc, &mut reader),
            1 => read_no_alias(alloc, &mut reader),
            _ => Err(PayloadFail::Unread),
        },
        Version::V1 => Err(PayloadFail::Unread),
    }
}

#[tactic(auto, unfolding(crate::specs::Reading::alias_value_at))]
fn read_alias_value(alloc: Global, reader: &mut Reader<'_>) -> Result<Payload, PayloadFail>
    ensures { GivesWhole payload_seen result (alias_value_at reader.old.rest) }
{
    this_array(reader, 2)?;
    let name = text(alloc, reader)?;
    let value = text(alloc, reader)?;
    reader.end()?;
    Ok(Payload::AliasSet { name, value })
}

#[tactic(auto, unfolding(crate::specs::Reading::no_alias_at))]
fn read_no_alias(alloc: Global, reader: &mut Reader<'_>) -> Result<Payload, PayloadFail>
    ensures { GivesWhole payload_seen result (no_alias_at reader.old.rest) }
{
    this_array(reader, 1)?;
    let name = text(alloc, reader)?;
    reader.end()?;
    Ok(Payload::AliasDelete { name })
}
