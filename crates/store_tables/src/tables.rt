//! What a store keeps beside its log.

ghost use Rattle.std.specs.Prelude.{◌≡◌, ◌<◌, ◌^◌, ◌++◌, ◌∷◌, ℕ, List, [], length, IfOk, Option};
ghost use Rattle.record_rules.specs.Records.{Entry};
ghost use Rattle.record_rules.specs.Journal.{SoundEvents, events_of};
ghost use Rattle.record_model.specs.Seen.{caller_seen, event_seen, events_seen};
ghost use Rattle.chain_index.specs.Meaning.{Filed, journal_of};
ghost use Rattle.kept_views.specs.Rooms.{IsRoomFor, KeepsRooms};
ghost use Rattle.kept_views.specs.Keeping.{KeepsFor};
ghost use Rattle.store_tables.specs.Entries.{UsesRoom, filed_by};
ghost use Rattle.store_tables.specs.Tables.{TablesOf, AreRooms, IsReadyBatch, MayAddBatch, MayAddOne, batch_entries};

use crate::entries::EntryTable;
use call_drafts::Kept;
use kept_views::{EventRoom, add_event, nothing_kept, reserve_event};
use plain_types::NoMemory;
use record_log::Spot;
use record_model::{Caller, Event};
use std::alloc::Global;

/// What a store keeps beside its log: the places of its entries, and what they show.
#[derive(Drop)]
pub struct Tables {
    pub entries: EntryTable,
    pub kept: Kept,
}

/// A batch on its way to the disk: its events, all of one call, each with room for what it shows.
#[derive(Drop)]
pub struct Batch {
    pub caller: Caller,
    pub events: Vec<Event>,
    pub rooms: Vec<EventRoom>,
}

/// Makes room for what each of the events shows.
///
/// # Errors
///
/// [`NoMemory`]. What is kept shows what it showed.
fn reserve_shown(
    kept: &mut Kept,
    alloc: Global,
    key: &Option<[u8; 32]>,
    events: &[Event],
) -> Result<Vec<EventRoom>, NoMemory>
    ensures rooms { IfOk result (λ rooms. AreRooms key.now kept.new (events_seen events.now) rooms.items) }
    ensures keeps { (host : ℕ) (key : Option (List ℕ)) (journal : List Entry) → KeepsFor host key kept.old journal → KeepsFor host key kept.new journal }
    ensures kept { KeepsRooms kept.old kept.new }
{
    let mut rooms = Vec::new(alloc);
    for event in events {
        let room = reserve_event(alloc, kept, key, event)?;
        rooms.push(room)?;
    }
    Ok(rooms)
}

/// Adds one event of a batch.
fn add_one(tables: &mut Tables, caller: Caller, event: Event, spot: Spot, at: u32, room: EventRoom)
    requires { (host : ℕ) × (key : Option (List ℕ)) × (filed : List Filed) × MayAddOne host key tables.old filed (event_seen event) room }
    ensures adds { (host : ℕ) (key : Option (List ℕ)) (filed : List Filed) → MayAddOne host key tables.old filed (event_seen event) room → TablesOf host key tables.new (filed ++ filed_by (caller_seen caller) (event_seen event) spot at ∷ []) }
    ensures uses { UsesRoom (event_seen event) tables.old.entries tables.new.entries }
    ensures rooms { KeepsRooms tables.old.kept tables.new.kept }
{
    tables.entries.add(caller, &event, spot, at);
    add_event(&mut tables.kept, event, room);
}

impl Tables {
    /// What is kept of no entries. It takes no memory.
    pub fn new(alloc: Global) -> Tables
        ensures { (host : ℕ) (key : Option (List ℕ)) → TablesOf host key result [] }
    {
        Tables {
            entries: EntryTable::new(alloc),
            kept: nothing_kept(alloc),
        }
    }

    /// Makes room for these events as a batch by the caller, under the key. No later call undoes that.
    ///
    /// # Errors
    ///
    /// [`NoMemory`]. The tables are of the same entries as before.
    pub fn ready(
        &mut self,
        alloc: Global,
        key: &Option<[u8; 32]>,
        caller: Caller,
        events: Vec<Event>,
    ) -> Result<Batch, NoMemory>
        requires { length events.items < 2 ^ 32 }
        ensures ready { IfOk result (λ batch. IsReadyBatch key.now self.new batch) }
        ensures caller { IfOk result (λ batch. batch.caller ≡ caller) }
        ensures events { IfOk result (λ batch. batch.events.items ≡ events.items) }
        ensures same { (host : ℕ) (key : Option (List ℕ)) (filed : List Filed) → TablesOf host key self.old filed → TablesOf host key self.new filed }
    {
        let rooms = reserve_shown(&mut self.kept, alloc, key, events.as_slice())?;
        self.entries.reserve(alloc, events.as_slice())?;
        Ok(Batch {
            caller,
            events,
            rooms,
        })
    }

    /// Makes room for one event as a batch by the caller, with room that was made for what it shows. No later call undoes
    /// that.
    ///
    /// # Errors
    ///
    /// [`NoMemory`]. The tables are of the same entries as before.
    pub fn ready_one(
        &mut self,
        alloc: Global,
        caller: Caller,
        event: Event,
        room: EventRoom,
    ) -> Result<Batch, NoMemory>
        ensures ready { IfOk result (λ batch. (key : Option (List ℕ)) → IsRoomFor key self.old.kept (event_seen event) room → IsReadyBatch key self.new batch) }
        ensures caller { IfOk result (λ batch. batch.caller ≡ caller) }
        ensures events { IfOk result (λ batch. batch.events.items ≡ event ∷ []) }
        ensures same { (host : ℕ) (key : Option (List ℕ)) (filed : List Filed) → TablesOf host key self.old filed → TablesOf host key self.new filed }
    {
        let mut events = Vec::new(alloc);
        events.push(event)?;
        let mut rooms = Vec::new(alloc);
        rooms.push(room)?;
        self.entries.reserve(alloc, events.as_slice())?;
        Ok(Batch {
            caller,
            events,
            rooms,
        })
    }

    /// Adds a batch that is on the disk at this spot, for which there is room. It takes no memory.
    pub fn add(&mut self, batch: Batch, spot: Spot)
        requires { (host : ℕ) × (key : Option (List ℕ)) × (filed : List Filed) × MayAddBatch host key self.old filed batch }
        ensures { (host : ℕ) (key : Option (List ℕ)) (filed : List Filed) → MayAddBatch host key self.old filed batch → TablesOf host key self.new (filed ++ batch_entries batch spot) }
    {
        let Batch {
            caller,
            events,
            rooms,
        } = batch;
        let mut rooms = rooms.into_iter();
        let mut at = 0;
        for event in events {
            match rooms.next() {
                Some(room) => add_one(self, caller, event, spot, at, room),
                None => unreachable!(),
            }
            at += 1;
        }
    }
}
