//! Events in the index.

ghost use Rattle.std.specs.Prelude.{◌≡◌, ◌++◌, ◌∷◌, List, [], All, OnOk};
ghost use Rattle.record_rules.specs.Records.{Entry};
ghost use Rattle.record_model.specs.Seen.{record_seen, event_seen, events_seen};
ghost use Rattle.chain_index.specs.Meaning.{Filed, IsIndexOf, IsReady, KeepsRooms};
ghost use Rattle.store_tables.specs.Entries.{IsReadyFor, MayIndex};

use chain_index::{ChainIndex, IndexRoom};
use plain_types::NoMemory;
use record_log::Spot;
use record_model::{Event, Record};
use std::alloc::Global;

/// Makes room for the owner's record.
///
/// # Errors
///
/// [`NoMemory`]. The index is of the same entries as before.
fn reserve_record(
    index: &mut ChainIndex,
    alloc: Global,
    owner: u32,
    rec: &Record,
) -> Result<(), NoMemory>
    ensures ready { OnOk result (IsReady index.new owner (record_seen rec.now)) }
    ensures same { (filed : List Filed) → IsIndexOf index.old filed → IsIndexOf index.new filed }
    ensures rooms { KeepsRooms index.old index.new }
{
    match index.reserve(alloc, owner, rec) {
        Ok(_) => Ok(()),
        Err(NoMemory) => Err(NoMemory),
    }
}

/// Makes room for the record that the event says, if it says one.
///
/// # Errors
///
/// [`NoMemory`]. The index is of the same entries as before.
fn reserve_one(index: &mut ChainIndex, alloc: Global, event: &Event) -> Result<(), NoMemory>
    ensures ready { OnOk result (IsReadyFor index.new (event_seen event.now)) }
    ensures same { (filed : List Filed) → IsIndexOf index.old filed → IsIndexOf index.new filed }
    ensures rooms { KeepsRooms index.old index.new }
{
    match event {
        Event::Started(_) => Ok(()),
        Event::Local { rec, .. } => reserve_record(index, alloc, 0, rec),
        Event::Taken { owner, rec } => reserve_record(index, alloc, *owner, rec),
    }
}

/// Makes room for the records of all these events.
///
/// # Errors
///
/// [`NoMemory`]. The index is of the same entries as before.
pub fn reserve_all(index: &mut ChainIndex, alloc: Global, events: &[Event]) -> Result<(), NoMemory>
    ensures ready { OnOk result (All (IsReadyFor index.new) (events_seen events.now)) }
    ensures same { (filed : List Filed) → IsIndexOf index.old filed → IsIndexOf index.new filed }
    ensures rooms { KeepsRooms index.old index.new }
{
    for event in events {
        reserve_one(index, alloc, event)?;
    }
    Ok(())
}

/// Adds what the event says, for whose record there is room. It takes no memory.
pub fn add(index: &mut ChainIndex, event: &Event, spot: Spot, at: u32)
    requires ready { IsReadyFor index.old (event_seen event.now) }
    requires next { MayIndex index.old (event_seen event.now) }
    ensures files { (filed : List Filed) (entry : Entry) → IsIndexOf index.old filed → entry.event ≡ event_seen event.now → IsIndexOf index.new (filed ++ record { entry = entry; spot = spot; at = at } ∷ []) }
    ensures rooms { KeepsRooms index.old index.new }
{
    match event {
        Event::Started(started) => index.add_started(started.weight()),
        Event::Local { rec, .. } => index.add_reserved(0, rec, spot, at, IndexRoom),
        Event::Taken { owner, rec } => index.add_reserved(*owner, rec, spot, at, IndexRoom),
    }
}
