//! The entries of a log.

ghost use Rattle.std.specs.Prelude.{◌≡◌, ◌++◌, ◌∷◌, List, [], length, slice_get, OnOk};
ghost use Rattle.std.specs.Option.{option_map};
ghost use Rattle.record_model.specs.Seen.{caller_seen, event_seen, events_seen};
ghost use Rattle.chain_index.specs.Meaning.{Filed};
ghost use Rattle.store_tables.specs.Entries.{place_seen, place_of, IsTableOf, HasRoomFor, KeepsRoom, UsesRoom, MayFile, filed_by};

use crate::indexing;
use chain_index::ChainIndex;
use plain_types::NoMemory;
use record_log::Spot;
use record_model::{Caller, Event};
use std::alloc::Global;
use std::marker::Model;

/// Whose call an entry came by, and where it stands: the spot of its batch, and its number among the batch's events, from 0.
#[derive(Clone, Copy, Debug, PartialEq, Eq)]
pub struct KeptEntry {
    pub caller: Caller,
    pub spot: Spot,
    pub at: u32,
}

/// The entries of a log in order, and where the records that they say stand.
#[derive(Drop)]
pub struct EntryTable {
    index: ChainIndex,
    entries: Vec<KeptEntry>,
}

impl Model for EntryTable {
    ghost use Rattle.std.specs.Vec.{vec_capacity};
    ghost use Rattle.store_tables.specs.Entries.{TableSeen};

    ghost Value = { TableSeen };

    ghost view = { λ t. record { index = t.index; entries = t.entries.items; reserved = vec_capacity t.entries } };
}

impl EntryTable {
    /// The table of no entries. It takes no memory.
    pub fn new(alloc: Global) -> EntryTable
        ensures { IsTableOf result [] }
    {
        EntryTable {
            index: ChainIndex::new(alloc),
            entries: Vec::new(alloc),
        }
    }

    /// How many entries there are. It takes no memory.
    pub fn len(&self) -> u64
        ensures { (filed : List Filed) → IsTableOf self.now filed → result ≡ length filed }
    {
        self.entries.len() as u64
    }

    /// The entry with this number as it is kept.
    fn entry(&self, number: u64) -> Option<KeptEntry>
        ensures { result ≡ slice_get self.now.entries number }
    {
        match self.entries.get(number as usize) {
            Some(entry) => Some(*entry),
            None => None,
        }
    }

    /// The entry with this number, from 0. None comes exactly where the number isn't below the count.
    pub fn get(&self, number: u64) -> Option<KeptEntry>
        ensures { (filed : List Filed) → IsTableOf self.now filed → option_map place_seen result ≡ option_map place_of (slice_get filed number) }
    {
        self.entry(number)
    }

    /// Where the records stand.
    pub fn index(&self) -> &ChainIndex
        ensures { result.now ≡ self.now.index }
    {
        &self.index
    }

    /// Makes room for a batch of these events. No later call undoes that.
    ///
    /// # Errors
    ///
    /// [`NoMemory`]. The table is of the same entries as before.
    pub fn reserve(&mut self, alloc: Global, events: &[Event]) -> Result<(), NoMemory>
        ensures room { OnOk result (HasRoomFor self.new (events_seen events.now)) }
        ensures same { (filed : List Filed) → IsTableOf self.old filed → IsTableOf self.new filed }
        ensures kept { KeepsRoom self.old self.new }
    {
        self.entries.reserve(events.len())?;
        indexing::reserve_all(&mut self.index, alloc, events)
    }

    /// Adds an entry that says the event, for which there is room and which may come next, by its caller, with the spot of
    /// its batch and its number there. It takes no memory.
    pub fn add(&mut self, caller: Caller, event: &Event, spot: Spot, at: u32)
        requires room { HasRoomFor self.old (event_seen event.now ∷ []) }
        requires next { MayFile self.old (event_seen event.now) }
        ensures files { (filed : List Filed) → IsTableOf self.old filed → IsTableOf self.new (filed ++ filed_by (caller_seen caller) (event_seen event.now) spot at ∷ []) }
        ensures uses { UsesRoom (event_seen event.now) self.old self.new }
    {
        indexing::add(&mut self.index, event, spot, at);
        match self.entries.push(KeptEntry { caller, spot, at }) {
            Ok(()) => {}
            Err(_) => unreachable!(),
        }
    }
}
