//! Making room for events.

ghost use Rattle.std.specs.Prelude.{◌≡◌, ℕ, List, IfOk, Option, Some};
ghost use Rattle.payload_rules.specs.Payloads as rules;
ghost use Rattle.record_rules.specs.Records.{Entry};
ghost use Rattle.record_model.specs.Seen.{record_seen, event_seen};
ghost use Rattle.payload_forms.specs.Seen.{payload_seen};
ghost use Rattle.kept_views.specs.Shown.{payload_under};
ghost use Rattle.kept_views.specs.Rooms.{HoldsShown, IsRoomFor, KeepsRooms};
ghost use Rattle.kept_views.specs.Keeping.{KeepsFor, KeepsMeaning};

use crate::opening::shown;
use crate::rooms::EventRoom;
use call_drafts::Kept;
use payload_forms::Payload;
use plain_types::NoMemory;
use record_model::{Event, Record};
use std::alloc::Global;

/// Makes room for a payload that is to be sealed. No later call undoes that.
///
/// # Errors
///
/// [`NoMemory`]. What is kept shows what it showed.
pub fn reserve_payload(
    alloc: Global,
    kept: &mut Kept,
    payload: &Payload,
) -> Result<EventRoom, NoMemory>
    ensures ready { IfOk result (λ room. HoldsShown kept.new (Some (payload_seen payload.now)) room) }
    ensures same { KeepsMeaning kept.old kept.new }
    ensures keeps { (host : ℕ) (key : Option (List ℕ)) (journal : List Entry) → KeepsFor host key kept.old journal → KeepsFor host key kept.new journal }
    ensures rooms { KeepsRooms kept.old kept.new }
{
    match payload {
        Payload::HistoryCreate(history) => Ok(EventRoom::History(
            kept.history.reserve_creation(alloc, history)?,
        )),
        Payload::HistoryDelete(id) => Ok(EventRoom::History(kept.history.reserve_deletion(*id)?)),
        Payload::KvSet {
            namespace,
            key,
            value,
        } => Ok(EventRoom::Pair(kept.pairs.reserve_set(alloc, namespace, key, value)?)),
        Payload::KvDelete { namespace, key } => Ok(EventRoom::Pair(
            kept.pairs.reserve_delete(alloc, namespace, key)?,
        )),
        Payload::AliasSet { name, value } => Ok(EventRoom::Alias(
            kept.aliases.reserve_set(alloc, name, value)?,
        )),
        Payload::AliasDelete { name } => {
            Ok(EventRoom::Alias(kept.aliases.reserve_end(alloc, name)?))
        }
    }
}

/// Makes room for what the record shows under the key.
fn reserve_record(
    alloc: Global,
    kept: &mut Kept,
    key: &Option<[u8; 32]>,
    rec: &Record,
) -> Result<EventRoom, NoMemory>
    ensures ready { IfOk result (λ room. HoldsShown kept.new (payload_under key.now (record_seen rec.now)) room) }
    ensures same { KeepsMeaning kept.old kept.new }
    ensures keeps { (host : ℕ) (key : Option (List ℕ)) (journal : List Entry) → KeepsFor host key kept.old journal → KeepsFor host key kept.new journal }
    ensures rooms { KeepsRooms kept.old kept.new }
{
    match shown(alloc, key, rec)? {
        Some(payload) => reserve_payload(alloc, kept, &payload),
        None => Ok(EventRoom::Unshown),
    }
}

/// Makes room for an event: a place for a command that starts, and for a record of owner 0 what it shows under the key.
/// A record that doesn't open under the key, or holds no payload, shows nothing, and so does every record where there
/// is no key. No later call undoes that.
///
/// # Errors
///
/// [`NoMemory`]. What is kept shows what it showed.
pub fn reserve_event(
    alloc: Global,
    kept: &mut Kept,
    key: &Option<[u8; 32]>,
    event: &Event,
) -> Result<EventRoom, NoMemory>
    ensures ready { IfOk result (λ room. IsRoomFor key.now kept.new (event_seen event.now) room) }
    ensures same { KeepsMeaning kept.old kept.new }
    ensures keeps { (host : ℕ) (key : Option (List ℕ)) (journal : List Entry) → KeepsFor host key kept.old journal → KeepsFor host key kept.new journal }
    ensures rooms { KeepsRooms kept.old kept.new }
{
    match event {
        Event::Started(started) => {
            kept.commands.reserve(started.id)?;
            Ok(EventRoom::Unshown)
        }
        Event::Local { rec, .. } => reserve_record(alloc, kept, key, rec),
        Event::Taken { owner, rec } => {
            if *owner == 0 {
                reserve_record(alloc, kept, key, rec)
            } else {
                Ok(EventRoom::Unshown)
            }
        }
    }
}
