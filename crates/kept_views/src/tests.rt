use super::*;
use call_drafts::Kept;
use payload_forms::Payload;
use plain_types::{NoMemory, Text};
use record_model::{Event, Record, Started};
use std::process::Abort;
use std::test::*;

// The key, and a command that ended sealed under it, at index 0 of host 1: as the tests of record_seal have them.
const KEY: [u8; 32] = [
    0x70, 0x71, 0x72, 0x73, 0x74, 0x75, 0x76, 0x77, 0x78, 0x79, 0x7a, 0x7b, 0x7c, 0x7d, 0x7e, 0x7f,
    0x80, 0x81, 0x82, 0x83, 0x84, 0x85, 0x86, 0x87, 0x88, 0x89, 0x8a, 0x8b, 0x8c, 0x8d, 0x8e, 0x8f,
];

const SEALED: &str =
    "v4.local.ICEiIyQlJicoKSorLC0uLzAxMjM0NTY3ODk6Ozw9Pj-7OI1oeFWwCikZ-6kGlKU8IZH6qGeEF79nPn_5pZ60JwJAUO6fhVAkfZ1w97ma_yqxhcNcYZ6O0hoUDgHx97FIo3rbz43oA76-UsJbUBV_-zdJmfRAKiTU8A8WEUiW9_33tu8KdAN6JBeVnQoK96pMVAt_bDc6UEXwZZJLQyqZSk89-CEsXQ";

const WRAPPED: &str =
    "{\"wpk\":\"k4.local-wrap.pie.Zrzbcp4YVDRzatXilqWJizh-B-BhU30GYSlkNuhxRYxAQUJDREVGR0hJSktMTU5PUFFSU1RVVldYWVpbXF1eX3dfALdzRD-_IzYjMQtc34F8F8HW9hfzCwoy4rUruGOS\",\"kid\":\"k4.lid.iVtYQDjr5gEijCSjJC3fQaJm7nCeQSeaty0Jixy8dbsk\"}";

/// The id of that command.
const ID: u128 = 0x018bcfe5_6800_7001_8203_040506070809;

/// A text of at most 1000 bytes.
fn text<R: AllocGlobal>(rt: &R, written: &str) -> Result<Text, NoMemory> {
    if written.len() > 1000 {
        return Err(NoMemory);
    }
    Text::copied(rt.alloc(), written.as_bytes())
}

/// The record of the command, with this sealed text.
fn record<R: AllocGlobal>(rt: &R, sealed: &str) -> Result<Record, NoMemory> {
    Ok(Record {
        id: 1,
        idx: 0,
        host: 1,
        host_name: text(rt, "")?,
        timestamp: 7,
        version: text(rt, "v0")?,
        tag: text(rt, "history")?,
        sealed: text(rt, sealed)?,
        wrapped: text(rt, WRAPPED)?,
    })
}

/// The start of the command.
fn started<R: AllocGlobal>(rt: &R) -> Result<Event, NoMemory> {
    Ok(Event::Started(Started {
        id: ID,
        timestamp: 1,
        command: text(rt, "ls")?,
        cwd: text(rt, "/")?,
        session: text(rt, "s1")?,
        hostname: text(rt, "h:u")?,
    }))
}

/// Makes room for the event and adds it.
fn add<R: AllocGlobal>(
    rt: &R,
    kept: &mut Kept,
    key: &Option<[u8; 32]>,
    event: Event,
) -> Result<(), NoMemory> {
    let room = reserve_event(rt.alloc(), kept, key, &event)?;
    add_event(kept, event, room);
    Ok(())
}

#[test]
fn a_command_runs_and_is_shown_once_it_ended(rt: HostRuntime) -> Result<(), Fail> {
    let mut kept = nothing_kept(rt.alloc());
    let key = Some(KEY);
    add(&rt, &mut kept, &key, started(&rt)?)?;
    assert!(rt; kept.commands.get(ID).is_some());
    assert!(rt; kept.history.get(ID).is_none());
    let ended = Event::Local {
        rec: record(&rt, SEALED)?,
        closes: Some(ID),
    };
    add(&rt, &mut kept, &key, ended)?;
    assert!(rt; kept.commands.get(ID).is_none());
    assert!(rt; kept.history.get(ID).is_some());
    Ok(())
}

#[test]
fn what_does_not_open_shows_nothing(rt: HostRuntime) -> Result<(), Fail> {
    let mut kept = nothing_kept(rt.alloc());
    let rec = record(&rt, SEALED)?;
    add(&rt, &mut kept, &None, Event::Taken { owner: 0, rec })?;
    assert!(rt; kept.history.get(ID).is_none());
    let rec = record(&rt, SEALED)?;
    add(
        &rt,
        &mut kept,
        &Some([7; 32]),
        Event::Taken { owner: 0, rec },
    )?;
    assert!(rt; kept.history.get(ID).is_none());
    let rec = record(&rt, "v4.local.")?;
    add(&rt, &mut kept, &Some(KEY), Event::Taken { owner: 0, rec })?;
    assert!(rt; kept.history.get(ID).is_none());
    // Nor does what another owner has.
    let rec = record(&rt, SEALED)?;
    add(&rt, &mut kept, &Some(KEY), Event::Taken { owner: 1, rec })?;
    assert!(rt; kept.history.get(ID).is_none());
    let rec = record(&rt, SEALED)?;
    add(&rt, &mut kept, &Some(KEY), Event::Taken { owner: 0, rec })?;
    assert!(rt; kept.history.get(ID).is_some());
    Ok(())
}

#[test]
fn two_rooms_are_open_at_once(rt: HostRuntime) -> Result<(), Fail> {
    let mut kept = nothing_kept(rt.alloc());
    let pair = Payload::KvSet {
        namespace: text(&rt, "n")?,
        key: text(&rt, "k")?,
        value: text(&rt, "v")?,
    };
    let alias = Payload::AliasSet {
        name: text(&rt, "a")?,
        value: text(&rt, "w")?,
    };
    let first = reserve_payload(rt.alloc(), &mut kept, &pair)?;
    let second = reserve_payload(rt.alloc(), &mut kept, &alias)?;
    let rec = record(&rt, SEALED)?;
    add_event(&mut kept, Event::Local { rec, closes: None }, second);
    assert!(rt; kept.pairs.get(b"n", b"k").is_none());
    assert!(rt; kept.aliases.get(b"a").is_some());
    let rec = record(&rt, SEALED)?;
    add_event(&mut kept, Event::Local { rec, closes: None }, first);
    match kept.pairs.get(b"n", b"k") {
        Some(value) => assert_eq!(rt; value.as_bytes(), b"v".as_slice()),
        None => assert!(rt; false),
    }
    Ok(())
}
