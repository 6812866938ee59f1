//! Commands that ended, in the bin of a payload.

ghost use Rattle.std.specs.Prelude.{◌≡◌, ℕ, List, Some, None};
ghost use Rattle.record_model.specs.Seen.{history_seen};
ghost use Rattle.payload_forms.specs.Reading.{history_at, numbers_at, texts_at, this_number_at, this_array_at, id_at, signed_at, author_at, layout_number, layout_items};
ghost use Rattle.payload_forms.specs.Seen.{Gives, GivesWhole, version_seen, numbers_seen};
ghost use Rattle.definitions.specs.Reading.{text_at};
ghost use Rattle.msgpack_fields.specs.Reading.{number_at, nil_or_at};

use crate::items::{Version, author, id, number, signed, text, this_array, this_number};
use crate::kinds::PayloadFail;
use msgpack_fields::Reader;
use record_model::History;
use std::alloc::Global;

/// The number at the front of what the bin holds.
fn layout_number(version: Version) -> u64
    ensures { result ≡ layout_number (version_seen version) }
{
    match version {
        Version::V0 => 0,
        Version::V1 => 1,
    }
}

/// The number of items in the array behind it.
fn layout_items(version: Version) -> u32
    ensures { result ≡ layout_items (version_seen version) }
{
    match version {
        Version::V0 => 9,
        Version::V1 => 10,
    }
}

/// The numbers that are told of a command, in their order.
#[derive(Clone, Copy)]
pub(crate) struct CommandNumbers {
    pub(crate) id: u128,
    pub(crate) timestamp: u64,
    pub(crate) duration: i64,
    pub(crate) exit: i64,
}

/// Reads what the bin of a command holds, to its last byte.
#[tactic(auto, unfolding(crate::specs::Reading::history_at))]
#[inline(always)]
pub(crate) fn read_history(
    alloc: Global,
    version: Version,
    held: &[u8],
) -> Result<History, PayloadFail>
    ensures { GivesWhole history_seen result (history_at (version_seen version) held.now) }
{
    let mut reader = Reader::new(held);
    this_number(&mut reader, layout_number(version))?;
    this_array(&mut reader, layout_items(version))?;
    let numbers = read_numbers(&mut reader)?;
    read_texts(alloc, version, numbers, &mut reader)
}

#[tactic(auto, unfolding(crate::specs::Reading::numbers_at))]
fn read_numbers(reader: &mut Reader<'_>) -> Result<CommandNumbers, PayloadFail>
    ensures { Gives numbers_seen reader.new.rest result (numbers_at reader.old.rest) }
{
    let id = id(reader)?;
    let timestamp = number(reader)?;
    let duration = signed(reader)?;
    let exit = signed(reader)?;
    Ok(CommandNumbers {
        id,
        timestamp,
        duration,
        exit,
    })
}

#[tactic(auto, unfolding(crate::specs::Reading::texts_at))]
#[inline(always)]
fn read_texts(
    alloc: Global,
    version: Version,
    numbers: CommandNumbers,
    reader: &mut Reader<'_>,
) -> Result<History, PayloadFail>
    ensures { GivesWhole history_seen result (texts_at (version_seen version) (numbers_seen numbers) reader.old.rest) }
{
    let command = text(alloc, reader)?;
    let cwd = text(alloc, reader)?;
    let session = text(alloc, reader)?;
    let hostname = text(alloc, reader)?;
    let deleted_at = reader.nil_or_u64()?;
    let author = author(alloc, reader, version)?;
    reader.end()?;
    Ok(History {
        id: numbers.id,
        timestamp: numbers.timestamp,
        duration: numbers.duration,
        exit: numbers.exit,
        command,
        cwd,
        session,
        hostname,
        deleted_at,
        author,
    })
}
