//! The body of a batch, whole.

ghost use Rattle.std.specs.Prelude.{◌≡◌, ℕ, ◌+◌, ◌≤◌, ◌<◌, ◌^◌, ◌++◌, List, length, MatchResult, IfOk, IfErr, IfSome, OnOk, Ok};
ghost use Rattle.log_rules.specs.Reading.{events_at, whole_body, body_at};
ghost use Rattle.log_rules.specs.Body.{HasRecordBytes, HasStartedBytes, HasEventBytes, text_bytes, record_bytes, started_bytes, closes_bytes, event_bytes, body_bytes, IsBatch};
ghost use Rattle.std.specs.List.{flat_map, AllByRecursion};
ghost use Rattle.std.specs.Int.{w32, w64, w128, to_be_bytes};
ghost use Rattle.definitions.specs.Spelling.{TextFits};
ghost use Rattle.record_model.specs.Seen.{record_seen, started_seen, event_seen, events_seen};
ghost use Rattle.log_format.specs.Answers.{FailsAs};

use crate::fails::FormatFail;
use crate::reader::Reader;
use plain_types::{Bytes, NoMemory, Text};
use record_model::{Event, Record, Started};
use std::alloc::Global;

/// The events of a body.
///
/// # Errors
///
/// [`FormatFail::Wrong`] exactly where no batch has this body, with the offset of the first field that can't be read;
/// [`FormatFail::NoMemory`].
pub fn read_batch(alloc: Global, bytes: &[u8]) -> Result<Vec<Event>, FormatFail>
    ensures { MatchResult result (λ events. body_at bytes.now ≡ Ok (events_seen events.items)) (λ fail. FailsAs (body_at bytes.now) fail) }
{
    let mut reader = Reader::new(bytes, 0, bytes.len() as u64);
    let count = match reader.count() {
        Ok(count) => count,
        Err(halt) => return Err(halt.of_whole()),
    };
    let events = match read_events(alloc, &mut reader, count) {
        Ok(events) => events,
        Err(fail) => return Err(fail),
    };
    if reader.left() > 0 {
        return Err(FormatFail::Wrong { place: reader.at() });
    }
    Ok(events)
}

/// The next `count` events.
fn read_events(alloc: Global, reader: &mut Reader<'_>, count: u32) -> Result<Vec<Event>, FormatFail>
    ensures read { IfOk result (λ events. events_at count reader.old ≡ Ok (events_seen events.items, reader.new)) }
    ensures stops { IfErr result (λ fail. FailsAs (whole_body (events_at count reader.old)) fail) }
{
    let mut events = Vec::new(alloc);
    for _ in 0..count {
        match reader.event(alloc) {
            Ok(event) => match events.push(event) {
                Ok(()) => {}
                Err(_) => return Err(FormatFail::NoMemory),
            },
            Err(halt) => return Err(halt.of_whole()),
        }
    }
    Ok(events)
}

// ---- writing

/// Appends a number in four bytes.
fn put_number_4(into: &mut Bytes, number: u32) -> Result<(), NoMemory>
    ensures { OnOk result (into.new.items ≡ into.old.items ++ to_be_bytes w32 number) }
{
    into.extend(&number.to_be_bytes())
}

/// Appends a number in eight bytes.
fn put_number_8(into: &mut Bytes, number: u64) -> Result<(), NoMemory>
    ensures { OnOk result (into.new.items ≡ into.old.items ++ to_be_bytes w64 number) }
{
    into.extend(&number.to_be_bytes())
}

/// Appends a number in sixteen bytes.
fn put_number_16(into: &mut Bytes, number: u128) -> Result<(), NoMemory>
    ensures { OnOk result (into.new.items ≡ into.old.items ++ to_be_bytes w128 number) }
{
    into.extend(&number.to_be_bytes())
}

/// Appends a text's length in four bytes, and the text.
fn put_text(into: &mut Bytes, text: &Text) -> Result<(), NoMemory>
    ensures bytes { OnOk result (into.new.items ≡ into.old.items ++ text_bytes text.now) }
    ensures has { OnOk result (TextFits text.now) }
{
    let bytes = text.as_bytes();
    put_number_4(into, bytes.len() as u32)?;
    into.extend(bytes)
}

/// Appends a record's fields.
fn put_record(into: &mut Bytes, rec: &Record) -> Result<(), NoMemory>
    ensures bytes { OnOk result (into.new.items ≡ into.old.items ++ record_bytes (record_seen rec.now)) }
    ensures has { OnOk result (HasRecordBytes (record_seen rec.now)) }
{
    put_number_16(into, rec.id)?;
    put_number_8(into, rec.idx)?;
    put_number_16(into, rec.host)?;
    put_text(into, &rec.host_name)?;
    put_number_8(into, rec.timestamp)?;
    put_text(into, &rec.version)?;
    put_text(into, &rec.tag)?;
    put_text(into, &rec.sealed)?;
    put_text(into, &rec.wrapped)?;
    Ok(())
}

/// Appends a command's fields.
fn put_started(into: &mut Bytes, started: &Started) -> Result<(), NoMemory>
    ensures bytes { OnOk result (into.new.items ≡ into.old.items ++ started_bytes (started_seen started.now)) }
    ensures has { OnOk result (HasStartedBytes (started_seen started.now)) }
{
    put_number_16(into, started.id)?;
    put_number_8(into, started.timestamp)?;
    put_text(into, &started.command)?;
    put_text(into, &started.cwd)?;
    put_text(into, &started.session)?;
    put_text(into, &started.hostname)?;
    Ok(())
}

/// Appends a mark, and the id that is closed where there is one.
fn put_closes(into: &mut Bytes, closes: Option<u128>) -> Result<(), NoMemory>
    ensures bytes { OnOk result (into.new.items ≡ into.old.items ++ closes_bytes closes) }
    ensures fits { IfSome closes (λ id. id < 2 ^ 128) }
{
    match closes {
        None => {
            into.push(0)?;
            Ok(())
        }
        Some(id) => {
            into.push(1)?;
            put_number_16(into, id)?;
            Ok(())
        }
    }
}

/// Appends an event: a byte for its kind, and its fields.
fn put_event(into: &mut Bytes, event: &Event) -> Result<(), NoMemory>
    ensures bytes { OnOk result (into.new.items ≡ into.old.items ++ event_bytes (event_seen event.now)) }
    ensures has { OnOk result (HasEventBytes (event_seen event.now)) }
{
    match event {
        Event::Started(started) => {
            into.push(1)?;
            put_started(into, started)?;
            Ok(())
        }
        Event::Local { rec, closes } => {
            into.push(2)?;
            put_closes(into, *closes)?;
            put_record(into, rec)?;
            Ok(())
        }
        Event::Taken { owner, rec } => {
            into.push(3)?;
            put_number_4(into, *owner)?;
            put_record(into, rec)?;
            Ok(())
        }
    }
}

/// Appends events, one behind the other.
fn put_events(into: &mut Bytes, batch: &[Event]) -> Result<(), NoMemory>
    ensures bytes { OnOk result (into.new.items ≡ into.old.items ++ flat_map event_bytes (events_seen batch.now)) }
    ensures has { OnOk result (AllByRecursion HasEventBytes (events_seen batch.now)) }
{
    for event in batch {
        put_event(into, event)?;
    }
    Ok(())
}

/// The body of a batch of 1 to 100 events, whose body has fewer than 2^32 bytes.
///
/// # Errors
///
/// [`NoMemory`].
pub fn write_batch(alloc: Global, batch: &[Event]) -> Result<Bytes, NoMemory>
    requires some { 1 ≤ length batch.now }
    requires few { length batch.now ≤ 100 }
    requires short { length (body_bytes (events_seen batch.now)) < 2 ^ 32 }
    ensures body { IfOk result (λ bytes. bytes.items ≡ body_bytes (events_seen batch.now)) }
    ensures batch { IfOk result (λ _. IsBatch (events_seen batch.now)) }
{
    let mut bytes = Bytes::new(alloc);
    put_number_4(&mut bytes, batch.len() as u32)?;
    put_events(&mut bytes, batch)?;
    Ok(bytes)
}
