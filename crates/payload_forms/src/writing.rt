//! Payloads as they are written.

ghost use Rattle.std.specs.Prelude.{◌≡◌, ℕ, ◌+◌, ◌<◌, ◌^◌, ◌++◌, length, IfOk, OnOk};
ghost use Rattle.definitions.specs.Ids.{id_text};
ghost use Rattle.definitions.specs.Search.{hit_bytes};
ghost use Rattle.definitions.specs.Spelling.{written_text};
ghost use Rattle.payload_rules.specs.Items.{written_bin};
ghost use Rattle.payload_rules.specs.Payloads.{written_u8, written_time, written_told, written_history, written_payload};
ghost use Rattle.record_model.specs.Seen.{history_seen};
ghost use Rattle.payload_forms.specs.Seen.{payload_seen};
ghost use Rattle.payload_forms.specs.Writing.{text_total, told_numbers, told_texts};

use crate::kinds::Payload;
use crate::lengths::{history_len, payload_len};
use msgpack_fields::Writer;
use plain_types::{Bytes, NoMemory, Text};
use record_model::{History, history_id_text};
use std::alloc::Global;

/// The bytes of a payload, each item in its shortest spelling or in the one that its place names, in the version that
/// [`payload_version`](crate::payload_version) tells. Its texts have fewer than 2^31 bytes together. Memory is taken
/// once.
///
/// # Errors
///
/// [`NoMemory`].
pub fn write_payload(alloc: Global, payload: &Payload) -> Result<Bytes, NoMemory>
    requires { text_total (payload_seen payload.now) < 2 ^ 31 }
    ensures { IfOk result (λ bytes. bytes.items ≡ written_payload (payload_seen payload.now)) }
{
    let mut bytes = Bytes::new(alloc);
    bytes.reserve(payload_len(payload) as usize)?;
    let mut writer = Writer::after(bytes);
    put_payload(&mut writer, payload)?;
    Ok(writer.into_bytes())
}

fn put_payload(writer: &mut Writer, payload: &Payload) -> Result<(), NoMemory>
    requires { text_total (payload_seen payload.now) < 2 ^ 31 }
    ensures { OnOk result (writer.new.items ≡ writer.old.items ++ written_payload (payload_seen payload.now)) }
{
    match payload {
        Payload::HistoryCreate(history) => put_creation(writer, history),
        Payload::HistoryDelete(id) => {
            writer.u8_form(1)?;
            put_id(writer, *id)
        }
        Payload::KvSet {
            namespace,
            key,
            value,
        } => {
            writer.array(3)?;
            put_text(writer, namespace)?;
            put_text(writer, key)?;
            put_text(writer, value)
        }
        Payload::KvDelete { namespace, key } => {
            writer.u8_form(1)?;
            writer.array(2)?;
            put_text(writer, namespace)?;
            put_text(writer, key)
        }
        Payload::AliasSet { name, value } => {
            writer.u8_form(0)?;
            writer.array(2)?;
            put_text(writer, name)?;
            put_text(writer, value)
        }
        Payload::AliasDelete { name } => {
            writer.u8_form(1)?;
            writer.array(1)?;
            put_text(writer, name)
        }
    }
}

/// A command that ended, in a bin.
fn put_creation(writer: &mut Writer, history: &History) -> Result<(), NoMemory>
    requires { hit_bytes (history_seen history.now) < 2 ^ 31 }
    ensures { OnOk result (writer.new.items ≡ writer.old.items ++ (written_u8 0 ++ written_bin (written_history (history_seen history.now)))) }
{
    writer.u8_form(0)?;
    writer.bin_head(history_len(history) as u32)?;
    put_history(writer, history)
}

/// What the bin of a command holds, in the version that has a place for what is told.
fn put_history(writer: &mut Writer, history: &History) -> Result<(), NoMemory>
    ensures { OnOk result (writer.new.items ≡ writer.old.items ++ written_history (history_seen history.now)) }
{
    match &history.author {
        Some(author) => {
            writer.u16_form(1)?;
            writer.array(10)?;
            put_told(writer, history)?;
            put_text(writer, author)
        }
        None => {
            writer.u16_form(0)?;
            writer.array(9)?;
            put_told(writer, history)
        }
    }
}

fn put_told(writer: &mut Writer, history: &History) -> Result<(), NoMemory>
    ensures { OnOk result (writer.new.items ≡ writer.old.items ++ written_told (history_seen history.now)) }
{
    put_numbers(writer, history)?;
    put_texts(writer, history)
}

#[tactic(auto, unfolding(crate::specs::Writing::told_numbers))]
fn put_numbers(writer: &mut Writer, history: &History) -> Result<(), NoMemory>
    ensures { OnOk result (writer.new.items ≡ writer.old.items ++ told_numbers (history_seen history.now)) }
{
    put_id(writer, history.id)?;
    writer.u64_form(history.timestamp)?;
    writer.int(i128::from(history.duration))?;
    writer.int(i128::from(history.exit))
}

#[tactic(auto, unfolding(crate::specs::Writing::told_texts))]
fn put_texts(writer: &mut Writer, history: &History) -> Result<(), NoMemory>
    ensures { OnOk result (writer.new.items ≡ writer.old.items ++ told_texts (history_seen history.now)) }
{
    put_text(writer, &history.command)?;
    put_text(writer, &history.cwd)?;
    put_text(writer, &history.session)?;
    put_text(writer, &history.hostname)?;
    put_time(writer, history.deleted_at)
}

fn put_time(writer: &mut Writer, time: Option<u64>) -> Result<(), NoMemory>
    ensures { OnOk result (writer.new.items ≡ writer.old.items ++ written_time time) }
{
    match time {
        Some(time) => writer.u64_form(time),
        None => writer.nil(),
    }
}

fn put_text(writer: &mut Writer, text: &Text) -> Result<(), NoMemory>
    ensures { OnOk result (writer.new.items ≡ writer.old.items ++ written_text text.now) }
{
    writer.text(text.as_bytes())
}

fn put_id(writer: &mut Writer, id: u128) -> Result<(), NoMemory>
    ensures { OnOk result (writer.new.items ≡ writer.old.items ++ written_text (id_text id)) }
{
    writer.text(&history_id_text(id))
}
