//! Records as JSON.

ghost use Rattle.std.specs.Prelude.{◌≡◌, ◌∷◌, [], ◌++◌, codes, decimal, flat_map, IfOk, OnOk};
ghost use Rattle.json.specs.Token.{key, string, number};
ghost use Rattle.definitions.specs.Ids.{hyphenated};
ghost use Rattle.record_model.specs.Seen.{record_seen, records_seen};
ghost use Rattle.record_json.specs.Records.{data_tokens, host_tokens, record_tokens, records_text};
ghost use Rattle.record_json.specs.Writing.{Adds};

use crate::members::text_str;
use json::Writer;
use plain_types::{Bytes, NoMemory, Text};
use record_model::{Record, record_id_text};
use std::alloc::Global;

/// The most that a record has beyond its weight where no text needs an escape, in bytes.
const FRAME_BYTES: u64 = 112;

/// Adds a member that is a text.
fn add_text(writer: &mut Writer, name: &str, text: &Text) -> Result<(), NoMemory>
    ensures { OnOk result (Adds writer.old writer.new (key name.now ∷ string text.now ∷ [])) }
{
    writer.key(name)?;
    writer.string(text_str(text))?;
    Ok(())
}

/// Adds a member that is an id.
fn add_id(writer: &mut Writer, name: &str, id: u128) -> Result<(), NoMemory>
    ensures { OnOk result (Adds writer.old writer.new (key name.now ∷ string (hyphenated id) ∷ [])) }
{
    let text = record_id_text(id);
    writer.key(name)?;
    match str::from_utf8(&text) {
        Ok(text) => writer.string(text)?,
        Err(_) => unreachable!(),
    }
    Ok(())
}

/// Adds a member that is an integer.
fn add_number(writer: &mut Writer, name: &str, n: u64) -> Result<(), NoMemory>
    ensures { OnOk result (Adds writer.old writer.new (key name.now ∷ number (decimal n) ∷ [])) }
{
    writer.key(name)?;
    writer.u64(n)?;
    Ok(())
}

fn add_data(writer: &mut Writer, wrapped: &Text, sealed: &Text) -> Result<(), NoMemory>
    ensures { OnOk result (Adds writer.old writer.new (key (codes "data") ∷ data_tokens wrapped.now sealed.now)) }
{
    writer.key("data")?;
    writer.begin_object()?;
    add_text(writer, "content_encryption_key", wrapped)?;
    add_text(writer, "data", sealed)?;
    writer.end_object()?;
    Ok(())
}

fn add_host(writer: &mut Writer, host: u128, name: &Text) -> Result<(), NoMemory>
    ensures { OnOk result (Adds writer.old writer.new (key (codes "host") ∷ host_tokens host name.now)) }
{
    writer.key("host")?;
    writer.begin_object()?;
    add_id(writer, "id", host)?;
    add_text(writer, "name", name)?;
    writer.end_object()?;
    Ok(())
}

fn add_record(writer: &mut Writer, r: &Record) -> Result<(), NoMemory>
    ensures { OnOk result (Adds writer.old writer.new (record_tokens (record_seen r.now))) }
{
    writer.begin_object()?;
    add_data(writer, &r.wrapped, &r.sealed)?;
    add_host(writer, r.host, &r.host_name)?;
    add_id(writer, "id", r.id)?;
    add_number(writer, "idx", r.idx)?;
    add_text(writer, "tag", &r.tag)?;
    add_number(writer, "timestamp", r.timestamp)?;
    add_text(writer, "version", &r.version)?;
    writer.end_object()?;
    Ok(())
}

fn add_records(writer: &mut Writer, page: &[Record]) -> Result<(), NoMemory>
    ensures { OnOk result (Adds writer.old writer.new (flat_map record_tokens (records_seen page.now))) }
{
    'page: for r in page {
        add_record(writer, r)?;
    }
    Ok(())
}

/// About the bytes that these records have where no text needs an escape, and no fewer.
fn usual_len(page: &[Record]) -> usize {
    let mut len = 2u64;
    for r in page {
        len = len.saturating_add(FRAME_BYTES + r.weight());
    }
    len as usize
}

/// The records as a JSON array: members in the order of their names, without spaces, texts with the shortest escapes.
///
/// # Errors
///
/// [`NoMemory`].
pub fn write_records(alloc: Global, page: &[Record]) -> Result<Bytes, NoMemory>
    ensures { IfOk result (λ bytes. bytes.items ≡ records_text (records_seen page.now)) }
{
    let mut writer = Writer::new(Vec::with_capacity(alloc, usual_len(page))?);
    writer.begin_array()?;
    add_records(&mut writer, page)?;
    writer.end_array()?;
    Ok(Bytes::from_vec(writer.into_inner()))
}
