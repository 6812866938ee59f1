//! The store with its note.

ghost use Rattle.std.specs.Prelude.{◌≡◌, ◌≢◌, List, [], length, None};
ghost use Rattle.record_rules.specs.Records.{Entry};
ghost use Rattle.record_model.specs.Seen.{caller_seen};
ghost use Rattle.model_words.specs.Seen.{call_seen, reply_seen};
ghost use Rattle.step_rules.specs.Calls.{CallFits};
ghost use Rattle.session_crashes.specs.Crashes.{LeavesState};
ghost use Rattle.call_supplies.specs.Supplies.{supplies};
ghost use Rattle.store_core.specs.Store.{IsStoreOf};
ghost use Rattle.told_store.specs.Told.{IsTold, HasRested, CallTold, HoldsEntries, DoubtsEntries};
ghost use Rattle.at_edge.specs.Storing.{Tells};

use crate::choices::{Answered, First, Rested};
use at_edge::{Clock, Disk, Entropy};
use record_model::{Call, Caller, Reply};
use state_notes::{Noted, NotedStore};
use std::alloc::Global;
use std::marker::Model;
use store_core::Store;

/// A store, and of which journal it is. Contracts see the store and the note.
#[derive(Drop)]
pub struct ToldStore<D: Disk> {
    pub(crate) store: Store<D>,
    pub(crate) noted: NotedStore,
}

impl<D: Disk> Model for ToldStore<D> {
    ghost use Rattle.told_store.specs.Told.{ToldSeen, IsTold};

    ghost Value = { ToldSeen };

    ghost view = { λ t. record { store = t.store; note = t.noted.note } };

    ghost invariant = { λ t. IsTold t.store t.noted.note };
}

impl<D: Disk> ToldStore<D> {
    /// The store, which is of some journal, with no turn so far. It takes no memory.
    pub fn of(store: Store<D>) -> ToldStore<D>
        requires { (journal : List Entry) × (doubt : List Entry) × IsStoreOf store journal doubt }
        ensures store { result.store ≡ store }
        ensures turns { result.note.turns ≡ [] }
        ensures told { IsTold result.store result.note }
    {
        let noted = NotedStore::chosen(&First { store: &store });
        ToldStore { store, noted }
    }

    /// The store alone. It takes no memory.
    pub fn into_store(self) -> Store<D>
        ensures store { result ≡ self.store }
        ensures is { IsStoreOf result self.note.state.entries self.note.state.doubt }
    {
        self.store
    }

    /// The disk, of which the store is no longer. Where it tells what it holds, that is the log of the journal that was
    /// noted; and where entries are in doubt, a crash may or may not leave them behind it. It takes no memory.
    pub fn into_disk(self) -> D
        ensures disk { D.disk result ≡ self.store.log.disk }
        ensures counted { self.note.state.faults ≡ (D.disk result).faults }
        ensures holds { self.note.state.doubt ≡ [] → Tells (D.disk result) (HoldsEntries self.store.log.host self.note.state.entries) }
        ensures doubts { self.note.state.doubt ≢ [] → Tells (D.disk result) (DoubtsEntries self.store.log.host self.note.state.entries self.note.state.doubt) }
    {
        self.store.into_disk()
    }

    /// Answers a call of a store that has a key, in one turn, from the state that is noted to the one that is noted then. The
    /// reply tells the number of entries of the journal that the turn leaves. Each refusal, and what stands after it, is as
    /// the words for turns say; a fault of the disk is told only where its count rose.
    pub fn ask<E: Entropy, C: Clock>(
        &mut self,
        alloc: Global,
        caller: Caller,
        call: &Call,
        rand: &mut E,
        clock: &mut C,
    ) -> Reply
        requires key { self.old.store.key ≢ None }
        requires fits { CallFits (call_seen call.now) }
        ensures told { CallTold self.old.store self.old.note self.new.store self.new.note (supplies (E.entropy rand.old) (C.clock clock.old)) (supplies (E.entropy rand.new) (C.clock clock.new)) (caller_seen caller) (call_seen call.now) (reply_seen result) }
        ensures host { self.new.store.log.host ≡ self.old.store.log.host }
        ensures key { self.new.store.key ≡ self.old.store.key }
    {
        let store_was = Noted::of(&self.store);
        let rand_was = Noted::of(&*rand);
        let clock_was = Noted::of(&*clock);
        let reply = self.store.ask(alloc, caller, call, rand, clock);
        let noted = NotedStore::chosen(&Answered {
            before: &self.noted,
            store_was: &store_was,
            rand_was: &rand_was,
            clock_was: &clock_was,
            store: &self.store,
            rand: &*rand,
            clock: &*clock,
            caller,
            call,
            reply: &reply,
        });
        self.noted = noted;
        reply
    }

    /// How many entries it has, outside of any turn. It takes no memory.
    pub fn entry_count(&self) -> u64
        ensures { result ≡ length self.now.note.state.entries }
    {
        Store::front(&self.store)
    }

    /// The number of entries, in a turn that asks nothing else. A crash now leaves the journal that is noted, or that with
    /// what is in doubt behind it. It takes no memory.
    pub fn front(&mut self) -> u64
        ensures rests { HasRested self.old.note self.new.note }
        ensures front { result ≡ length self.new.note.state.entries }
        ensures store { self.new.store ≡ self.old.store }
        ensures leaves { LeavesState self.new.store.log.host self.new.note.state self.new.store.log.disk.history }
    {
        let noted = NotedStore::chosen(&Rested {
            before: &self.noted,
        });
        self.noted = noted;
        self.store.front()
    }
}
