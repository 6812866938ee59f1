//! Replies, written as the payloads of frames.

ghost use Rattle.std.specs.Prelude.{◌≡◌, ◌+◌, ◌≤◌, ◌<◌, ◌^◌, ◌++◌, length, IsOk, OnOk, OnErr};
ghost use Rattle.step_rules.specs.Answers.{refused};
ghost use Rattle.session_rules.specs.Bytes.{answer_bytes, refused_bytes, reply_bytes, value_item};
ghost use Rattle.definitions.specs.Ids.{id_text};
ghost use Rattle.definitions.specs.Spelling.{written_text};
ghost use Rattle.definitions.specs.Replies.{written_number, refusal_of_bytes};
ghost use Rattle.model_words.specs.Seen.{answer_seen, refusal_seen, reply_seen};
ghost use Rattle.daemon_wire.specs.Writing.{IsCounted, IsShort, Keeps, head_bytes, numbers_bytes};

use crate::hits::put_hits;
use crate::lists::{put_aliases, put_places, put_texts};
use msgpack_fields::Writer;
use plain_types::{Bytes, NoMemory, Text};
use record_model::{Answer, Refusal, Reply, history_id_text};
use std::alloc::Global;
use std::mem;

/// Appends the payload of a reply to the bytes that stand in `into`. A reply that tells an id, an index, or a refusal
/// without a text has at most 64 bytes, and takes no memory where there is room for so many.
///
/// # Errors
///
/// [`NoMemory`]. The bytes of `into` then stand as before.
pub fn write_reply(alloc: Global, reply: &Reply, into: &mut Bytes) -> Result<(), NoMemory>
    requires counted { IsCounted (reply_seen reply.now).answer }
    ensures ok { OnOk result (into.new.items ≡ into.old.items ++ reply_bytes (reply_seen reply.now)) }
    ensures err { OnErr result (into.new.items ≡ into.old.items) }
    ensures reserved { into.old.reserved ≤ into.new.reserved }
    ensures short { IsShort (reply_seen reply.now).answer → length into.new.items ≤ length into.old.items + 64 }
    ensures enough { IsShort (reply_seen reply.now).answer → length into.old.items + 64 ≤ into.old.reserved → IsOk result }
{
    let before = into.len();
    let mut writer = Writer::after(mem::replace(into, Bytes::new(alloc)));
    let written = put_reply(&mut writer, reply);
    *into = writer.into_bytes();
    if written.is_err() {
        into.truncate(before);
    }
    written
}

fn put_reply(writer: &mut Writer, reply: &Reply) -> Result<(), NoMemory>
    requires counted { IsCounted (reply_seen reply.now).answer }
    ensures ok { OnOk result (writer.new.items ≡ writer.old.items ++ reply_bytes (reply_seen reply.now)) }
    ensures kept { OnErr result (Keeps writer.old.items writer.new.items) }
    ensures reserved { writer.old.reserved ≤ writer.new.reserved }
    ensures short { OnOk result (IsShort (reply_seen reply.now).answer → length writer.new.items ≤ length writer.old.items + 64) }
    ensures enough { IsShort (reply_seen reply.now).answer → length writer.old.items + 64 ≤ writer.old.reserved → IsOk result }
{
    match &reply.result {
        Ok(answer) => put_answer(writer, reply.front, answer),
        Err(refusal) => put_refusal(writer, reply.front, refusal),
    }
}

fn put_answer(writer: &mut Writer, front: u64, answer: &Answer) -> Result<(), NoMemory>
    requires counted { IsCounted (answer_seen answer.now) }
    ensures ok { OnOk result (writer.new.items ≡ writer.old.items ++ answer_bytes front (answer_seen answer.now)) }
    ensures kept { OnErr result (Keeps writer.old.items writer.new.items) }
    ensures reserved { writer.old.reserved ≤ writer.new.reserved }
    ensures short { OnOk result (IsShort (answer_seen answer.now) → length writer.new.items ≤ length writer.old.items + 64) }
    ensures enough { IsShort (answer_seen answer.now) → length writer.old.items + 64 ≤ writer.old.reserved → IsOk result }
{
    put_head(writer, 3, 0, front)?;
    match answer {
        Answer::Begun { id } => put_id(writer, *id),
        Answer::Stored { idx } => writer.int(i128::from(*idx)),
        Answer::Hits(found) => put_hits(writer, found.as_slice()),
        Answer::Value(value) => put_value(writer, value),
        Answer::Names(found) => put_texts(writer, found.as_slice()),
        Answer::Aliases(found) => put_aliases(writer, found.as_slice()),
        Answer::Places(found) => put_places(writer, found.as_slice()),
    }
}

/// Each refusal under its number.
fn put_refusal(writer: &mut Writer, front: u64, refusal: &Refusal) -> Result<(), NoMemory>
    ensures ok { OnOk result (writer.new.items ≡ writer.old.items ++ refused_bytes front (refusal_seen refusal.now)) }
    ensures kept { OnErr result (Keeps writer.old.items writer.new.items) }
    ensures reserved { writer.old.reserved ≤ writer.new.reserved }
    ensures short { OnOk result (IsShort (refused (refusal_seen refusal.now)) → length writer.new.items ≤ length writer.old.items + 64) }
    ensures enough { IsShort (refused (refusal_seen refusal.now)) → length writer.old.items + 64 ≤ writer.old.reserved → IsOk result }
{
    match refusal {
        Refusal::TooLong { field, length } => {
            put_numbers(writer, 1, front, u64::from(*field), *length)
        }
        Refusal::UnknownId { id } => put_refused_id(writer, 2, front, *id),
        Refusal::UnknownName { name } => put_refused_name(writer, front, name),
        Refusal::Full { what, held } => { put_numbers(writer, 4, front, u64::from(*what), *held) }
        Refusal::RandFault => put_head(writer, 2, 5, front),
        Refusal::IdTaken { id } => put_refused_id(writer, 6, front, *id),
        Refusal::DiskFault => put_head(writer, 2, 7, front),
        Refusal::NoMemory => put_head(writer, 2, 8, front),
    }
}

/// A refusal that tells two numbers.
fn put_numbers(
    writer: &mut Writer,
    number: u8,
    front: u64,
    first: u64,
    second: u64,
) -> Result<(), NoMemory>
    ensures ok { OnOk result (writer.new.items ≡ writer.old.items ++ numbers_bytes number front first second) }
    ensures kept { OnErr result (Keeps writer.old.items writer.new.items) }
    ensures reserved { writer.old.reserved ≤ writer.new.reserved }
    ensures short { OnOk result (length writer.new.items ≤ length writer.old.items + 64) }
    ensures enough { length writer.old.items + 64 ≤ writer.old.reserved → IsOk result }
{
    put_head(writer, 4, number, front)?;
    writer.int(i128::from(first))?;
    writer.int(i128::from(second))
}

/// A refusal that tells an id.
fn put_refused_id(writer: &mut Writer, number: u8, front: u64, id: u128) -> Result<(), NoMemory>
    ensures ok { OnOk result (writer.new.items ≡ writer.old.items ++ refusal_of_bytes number front (written_text (id_text id))) }
    ensures kept { OnErr result (Keeps writer.old.items writer.new.items) }
    ensures reserved { writer.old.reserved ≤ writer.new.reserved }
    ensures short { OnOk result (length writer.new.items ≤ length writer.old.items + 64) }
    ensures enough { length writer.old.items + 64 ≤ writer.old.reserved → IsOk result }
{
    put_head(writer, 3, number, front)?;
    put_id(writer, id)
}

/// The refusal that tells a name.
fn put_refused_name(writer: &mut Writer, front: u64, name: &Text) -> Result<(), NoMemory>
    ensures ok { OnOk result (writer.new.items ≡ writer.old.items ++ refusal_of_bytes 3 front (written_text name.now)) }
    ensures kept { OnErr result (Keeps writer.old.items writer.new.items) }
    ensures reserved { writer.old.reserved ≤ writer.new.reserved }
{
    put_head(writer, 3, 3, front)?;
    writer.text(name.as_bytes())
}

/// The header of a reply's array, the number of its refusal or 0, and the front.
fn put_head(writer: &mut Writer, items: u32, number: u8, front: u64) -> Result<(), NoMemory>
    ensures ok { OnOk result (writer.new.items ≡ writer.old.items ++ head_bytes items number front) }
    ensures kept { OnErr result (Keeps writer.old.items writer.new.items) }
    ensures reserved { writer.old.reserved ≤ writer.new.reserved }
    ensures short { OnOk result (length writer.new.items ≤ length writer.old.items + 23) }
    ensures enough { length writer.old.items + 23 ≤ writer.old.reserved → IsOk result }
{
    writer.array(items)?;
    writer.int(i128::from(number))?;
    writer.int(i128::from(front))
}

/// An id in its digits.
pub(crate) fn put_id(writer: &mut Writer, id: u128) -> Result<(), NoMemory>
    ensures ok { OnOk result (writer.new.items ≡ writer.old.items ++ written_text (id_text id)) }
    ensures err { OnErr result (writer.new.items ≡ writer.old.items) }
    ensures reserved { writer.old.reserved ≤ writer.new.reserved }
    ensures short { OnOk result (length writer.new.items ≤ length writer.old.items + 37) }
    ensures enough { length writer.old.items + 37 ≤ writer.old.reserved → IsOk result }
{
    writer.text(&history_id_text(id))
}

/// Nil where the key has no value.
fn put_value(writer: &mut Writer, value: &Option<Text>) -> Result<(), NoMemory>
    ensures ok { OnOk result (writer.new.items ≡ writer.old.items ++ value_item value.now) }
    ensures err { OnErr result (writer.new.items ≡ writer.old.items) }
    ensures reserved { writer.old.reserved ≤ writer.new.reserved }
{
    match value {
        Some(value) => writer.text(value.as_bytes()),
        None => writer.nil(),
    }
}
