//! Records from JSON.

ghost use Rattle.std.specs.Prelude.{◌≡◌, [], ◌∷◌, ◌++◌, codes, map, IfOk, OnOk, MatchResult, option_map, List};
ghost use Rattle.serde_json.specs.Data.{Data};
ghost use Rattle.serde_json.specs.Find.{get};
ghost use Rattle.serde_json.specs.View.{view};
ghost use Rattle.record_model.specs.Seen.{record_seen, records_seen};
ghost use Rattle.record_json.specs.Records.{name_of, record_in};
ghost use Rattle.record_json.specs.Reading.{AreRecords, HoldsRecords, SpellsRecords, RefusesItems, RefusesValue, RefusesBytes, FirstWrong};
ghost use Rattle.record_json.specs.Parts.{parts_seen};

use crate::fail::JsonFail;
use crate::looking::{id_under, number_under, owned_text, read_json, text_under};
use plain_types::NoMemory;
use record_model::Record;
use serde_json::Value;
use std::alloc::Global;

/// What a record says, in the texts of the value that it was read from.
#[derive(Drop)]
pub struct Parts<'v> {
    id: u128,
    idx: u64,
    host: u128,
    host_name: &'v str,
    timestamp: u64,
    version: &'v str,
    tag: &'v str,
    sealed: &'v str,
    wrapped: &'v str,
}

/// The name of a host, empty where it is missing.
fn host_name(host: &Value) -> Option<&str>
    ensures { option_map (λ name. name.now) result ≡ name_of (get (codes "name") (view host.now)) }
{
    match host.get("name") {
        Some(name) => name.as_str(),
        None => Some(""),
    }
}

fn parts_of(value: &Value) -> Option<Parts<'_>>
    ensures { option_map parts_seen result ≡ record_in (view value.now) }
{
    let data = value.get("data")?;
    let host = value.get("host")?;
    Some(Parts {
        id: id_under(value, "id")?,
        idx: number_under(value, "idx")?,
        host: id_under(host, "id")?,
        host_name: host_name(host)?,
        timestamp: number_under(value, "timestamp")?,
        version: text_under(value, "version")?,
        tag: text_under(value, "tag")?,
        sealed: text_under(data, "data")?,
        wrapped: text_under(data, "content_encryption_key")?,
    })
}

/// The record of these parts.
fn owned_record(alloc: Global, parts: &Parts<'_>) -> Result<Record, NoMemory>
    ensures { IfOk result (λ r. record_seen r ≡ parts_seen parts.now) }
{
    Ok(Record {
        id: parts.id,
        idx: parts.idx,
        host: parts.host,
        host_name: owned_text(alloc, parts.host_name)?,
        timestamp: parts.timestamp,
        version: owned_text(alloc, parts.version)?,
        tag: owned_text(alloc, parts.tag)?,
        sealed: owned_text(alloc, parts.sealed)?,
        wrapped: owned_text(alloc, parts.wrapped)?,
    })
}

/// The record that a value stands for, if it stands for one.
fn read_record(alloc: Global, value: &Value) -> Result<Option<Record>, NoMemory>
    ensures { IfOk result (λ found. option_map record_seen found ≡ record_in (view value.now)) }
{
    match parts_of(value) {
        Some(parts) => Ok(Some(owned_record(alloc, &parts)?)),
        None => Ok(None),
    }
}

/// The refusal of the item at this place.
fn wrong_at(position: usize) -> JsonFail
    ensures { (items : List Data) → FirstWrong items position → RefusesItems items result }
{
    match u32::try_from(position) {
        Ok(position) => JsonFail::NotRecords { position },
        Err(_) => JsonFail::NoMemory,
    }
}

fn keep(records: &mut Vec<Record>, found: Record) -> Result<(), NoMemory>
    ensures { OnOk result (records.new.items ≡ records.old.items ++ found ∷ []) }
{
    records.push(found)?;
    Ok(())
}

fn read_items(alloc: Global, items: &[Value]) -> Result<Vec<Record>, JsonFail>
    ensures { MatchResult result (λ records. AreRecords (map view items.now) (records_seen records.items))
        (λ fail. RefusesItems (map view items.now) fail) }
{
    let mut records = Vec::new(alloc);
    'items: for (position, item) in items.iter().enumerate() {
        match read_record(alloc, item)? {
            Some(found) => keep(&mut records, found)?,
            None => return Err(wrong_at(position)),
        }
    }
    Ok(records)
}

fn read_value(alloc: Global, value: &Value) -> Result<Vec<Record>, JsonFail>
    ensures { MatchResult result (λ records. HoldsRecords (view value.now) (records_seen records.items))
        (λ fail. RefusesValue (view value.now) fail) }
{
    match value.as_array() {
        Some(items) => read_items(alloc, items.as_slice()),
        None => Err(JsonFail::NotRecords { position: 0 }),
    }
}

/// The records of a JSON array. Members may stand in any order, and others are ignored; ids may have any form of a UUID; a
/// missing name of a host is empty.
///
/// # Errors
///
/// [`JsonFail::NotJson`] exactly where `serde_json` reads no value of the bytes, and [`JsonFail::NotRecords`] exactly where
/// the value is no array of records, with the place of the first item that is none; 0 where it is no array.
/// [`JsonFail::NoMemory`], also where an item past the 2^32nd is the first wrong one, or a text has 2^32 bytes or more.
pub fn read_records(alloc: Global, bytes: &[u8]) -> Result<Vec<Record>, JsonFail>
    ensures { MatchResult result (λ records. SpellsRecords bytes.now (records_seen records.items))
        (λ fail. RefusesBytes bytes.now fail) }
{
    match read_json(alloc, bytes)? {
        Some(value) => read_value(alloc, &value),
        None => Err(JsonFail::NotJson),
    }
}
