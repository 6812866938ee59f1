//! The one path by which entries come to the disk.

ghost use Rattle.std.specs.Prelude.{◌≡◌, ◌≤◌, ◌∷◌, List, [], Some, None, length, All, IfOk, OnOk, IsErr};
ghost use Rattle.definitions.specs.Counts.{Rose};
ghost use Rattle.record_rules.specs.Records.{Entry};
ghost use Rattle.record_rules.specs.Journal.{EventFits};
ghost use Rattle.record_model.specs.Seen.{event_seen, events_seen};
ghost use Rattle.kept_views.specs.Rooms.{IsRoomFor};
ghost use Rattle.store_core.specs.Store.{entries_of, IsStoreOf};
ghost use Rattle.store_core.specs.Commits.{Settles, MayMake, MayCommit, Commits};

use crate::store::Store;
use at_edge::{Disk, DiskFault};
use kept_views::EventRoom;
use plain_types::NoMemory;
use record_log::Ready;
use record_model::{Caller, Event};
use std::alloc::Global;
use store_tables::Batch;

/// The batch as it is settled in another call: by no pass, for the pass and the call that made it.
fn settled_batch(batch: Batch) -> Batch
    ensures caller { result.caller ≡ record { number = 0; call = batch.caller.call; settled_for = batch.caller.number } }
    ensures events { result.events ≡ batch.events }
    ensures rooms { result.rooms ≡ batch.rooms }
{
    let Batch {
        caller,
        events,
        rooms,
    } = batch;
    Batch {
        caller: Caller {
            number: 0,
            call: caller.call,
            settled_for: caller.number,
        },
        events,
        rooms,
    }
}

impl<D: Disk> Store<D> {
    /// Holds the batch as the one in doubt.
    fn doubt_batch(&mut self, batch: Batch)
        requires { self.old.doubt ≡ None }
        ensures { self.new ≡ record self.old { doubt = Some batch } }
    {
        self.doubt = Some(batch);
    }

    /// Settles the batch, which is in doubt, and which the store no longer holds.
    ///
    /// # Errors
    ///
    /// [`DiskFault`], where the disk's count rose. The store holds the batch again, and it is still in doubt.
    fn settle_batch(&mut self, batch: Batch) -> Result<(), DiskFault>
        requires means { (journal : List Entry) × IsStoreOf (record self.old { doubt = Some batch }) journal (entries_of batch) }
        requires none { self.old.doubt ≡ None }
        ensures settles { Settles (record self.old { doubt = Some batch }) self.new result }
        ensures done { OnOk result (self.new.doubt ≡ None) }
        ensures counted { IsErr result → Rose self.old.log.disk.faults self.new.log.disk.faults }
        ensures kept { self.old.log.disk.faults ≤ self.new.log.disk.faults }
        ensures host { self.new.log.host ≡ self.old.log.host }
        ensures key { self.new.key ≡ self.old.key }
    {
        match self.log.settle() {
            Ok(spot) => {
                self.tables.add(settled_batch(batch), spot);
                Ok(())
            }
            Err(fault) => {
                self.doubt_batch(batch);
                Err(fault)
            }
        }
    }

    /// Settles the batch in doubt, where there is one. It takes no memory.
    ///
    /// # Errors
    ///
    /// [`DiskFault`], where the disk's count rose. The batch is still in doubt.
    pub fn settle(&mut self) -> Result<(), DiskFault>
        requires { (journal : List Entry) × (doubt : List Entry) × IsStoreOf self.old journal doubt }
        ensures settles { Settles self.old self.new result }
        ensures done { OnOk result (self.new.doubt ≡ None) }
        ensures counted { IsErr result → Rose self.old.log.disk.faults self.new.log.disk.faults }
        ensures kept { self.old.log.disk.faults ≤ self.new.log.disk.faults }
        ensures host { self.new.log.host ≡ self.old.log.host }
        ensures key { self.new.key ≡ self.old.key }
    {
        match self.doubt.take() {
            None => Ok(()),
            Some(batch) => self.settle_batch(batch),
        }
    }

    /// Commits the batch, for which there is room, whose bytes these are. It takes no memory.
    ///
    /// # Errors
    ///
    /// [`DiskFault`], where the disk's count rose. The batch is lost, or it is in doubt.
    pub fn commit(&mut self, batch: Batch, bytes: Ready) -> Result<(), DiskFault>
        requires { (journal : List Entry) × MayCommit self.old journal batch bytes }
        ensures commits { Commits self.old self.new result batch bytes }
        ensures done { OnOk result (self.new.doubt ≡ None) }
        ensures counted { IsErr result → Rose self.old.log.disk.faults self.new.log.disk.faults }
        ensures kept { self.old.log.disk.faults ≤ self.new.log.disk.faults }
        ensures host { self.new.log.host ≡ self.old.log.host }
        ensures key { self.new.key ≡ self.old.key }
    {
        match self.log.append(bytes) {
            Ok(spot) => {
                self.tables.add(batch, spot);
                Ok(())
            }
            Err(fault) => {
                if self.log.in_doubt() {
                    self.doubt_batch(batch);
                }
                Err(fault)
            }
        }
    }

    /// Makes room for 1 to 100 events as a batch by the caller, and the batch's bytes, to be committed next. Nothing shows
    /// of it.
    ///
    /// # Errors
    ///
    /// [`NoMemory`]. The store stands for the same journal.
    pub fn ready(
        &mut self,
        alloc: Global,
        caller: Caller,
        events: Vec<Event>,
    ) -> Result<(Batch, Ready), NoMemory>
        requires some { 1 ≤ length events.items }
        requires few { length events.items ≤ 100 }
        requires fit { All EventFits (events_seen events.items) }
        requires settled { self.old.doubt ≡ None }
        ensures ready { IfOk result (λ made. (journal : List Entry) → MayMake self.old journal caller events.items → MayCommit self.new journal made.0 made.1) }
        ensures caller { IfOk result (λ made. made.0.caller ≡ caller) }
        ensures events { IfOk result (λ made. made.0.events.items ≡ events.items) }
        ensures same { (journal : List Entry) → IsStoreOf self.old journal [] → IsStoreOf self.new journal [] }
        ensures log { self.new.log ≡ self.old.log }
        ensures key { self.new.key ≡ self.old.key }
        ensures doubt { self.new.doubt ≡ None }
    {
        let bytes = self.log.ready(alloc, events.as_slice())?;
        let batch = self.tables.ready(alloc, &self.key, caller, events)?;
        Ok((batch, bytes))
    }

    /// Makes a batch by the caller of one event, with room that was made for what it shows, and the batch's bytes, to be
    /// committed next. Nothing shows of it.
    ///
    /// # Errors
    ///
    /// [`NoMemory`]. The store stands for the same journal.
    pub fn ready_one(
        &mut self,
        alloc: Global,
        caller: Caller,
        event: Event,
        room: EventRoom,
    ) -> Result<(Batch, Ready), NoMemory>
        requires fits { EventFits (event_seen event) }
        requires settled { self.old.doubt ≡ None }
        ensures ready { IfOk result (λ made. (journal : List Entry) → MayMake self.old journal caller (event ∷ []) → IsRoomFor self.old.key self.old.tables.kept (event_seen event) room → MayCommit self.new journal made.0 made.1) }
        ensures caller { IfOk result (λ made. made.0.caller ≡ caller) }
        ensures events { IfOk result (λ made. made.0.events.items ≡ event ∷ []) }
        ensures same { (journal : List Entry) → IsStoreOf self.old journal [] → IsStoreOf self.new journal [] }
        ensures log { self.new.log ≡ self.old.log }
        ensures key { self.new.key ≡ self.old.key }
        ensures doubt { self.new.doubt ≡ None }
    {
        let batch = self.tables.ready_one(alloc, caller, event, room)?;
        let bytes = self.log.ready(alloc, batch.events.as_slice())?;
        Ok((batch, bytes))
    }
}
