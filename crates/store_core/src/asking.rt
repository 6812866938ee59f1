//! A call: one that only asks is answered from what is kept, any other one is written.

ghost use Rattle.std.specs.Prelude.{◌≡◌, ◌≢◌, ◌≤◌, List, None, true};
ghost use Rattle.definitions.specs.Counts.{Rose};
ghost use Rattle.record_rules.specs.Records.{Entry};
ghost use Rattle.record_model.specs.Seen.{caller_seen};
ghost use Rattle.model_words.specs.Seen.{call_seen, reply_seen};
ghost use Rattle.step_rules.specs.Calls.{CallFits, is_read};
ghost use Rattle.step_rules.specs.Answers.{refused, disk_fault};
ghost use Rattle.call_supplies.specs.Supplies.{supplies};
ghost use Rattle.store_core.specs.Store.{IsStoreOf};
ghost use Rattle.store_core.specs.Calls.{AsksUsing, OnlyAsks};

use crate::store::Store;
use at_edge::{Clock, Disk, Entropy};
use record_model::{Call, Caller, Refusal, Reply};
use std::alloc::Global;

/// Whether the call only asks.
fn is_read(call: &Call) -> bool
    ensures { result ≡ is_read (call_seen call.now) }
{
    match call {
        Call::Search(_) => true,
        Call::KvGet { .. } => true,
        Call::KvList { .. } => true,
        Call::AliasList { .. } => true,
        Call::Status => true,
        _ => false,
    }
}

impl<D: Disk> Store<D> {
    /// Answers a call that only asks, from the journal without what is in doubt.
    fn read(&self, alloc: Global, call: &Call) -> Reply
        requires asks { is_read (call_seen call.now) ≡ true }
        requires fits { CallFits (call_seen call.now) }
        ensures shows { OnlyAsks self.now (call_seen call.now) (reply_seen result) }
        ensures told { (reply_seen result).answer ≢ refused disk_fault }
    {
        match self.answer(alloc, call) {
            Ok(shown) => self.reply(Ok(shown)),
            Err(_) => self.reply(Err(Refusal::NoMemory)),
        }
    }

    /// Answers a call of a store that has a key, in one turn. A call that only asks uses neither the clock nor the random
    /// source, and leaves what is in doubt. A writing call settles that first.
    ///
    /// The reply tells the number of entries of the journal as the call leaves it. A fault of the disk is told only where
    /// its count rose; a store without memory tells so, and after each refusal stands for the journal that the words for
    /// turns say.
    pub fn ask<E: Entropy, C: Clock>(
        &mut self,
        alloc: Global,
        caller: Caller,
        call: &Call,
        rand: &mut E,
        clock: &mut C,
    ) -> Reply
        requires key { self.old.key ≢ None }
        requires fits { CallFits (call_seen call.now) }
        requires means { (journal : List Entry) × (doubt : List Entry) × IsStoreOf self.old journal doubt }
        ensures asks { AsksUsing self.old self.new (supplies (E.entropy rand.old) (C.clock clock.old)) (supplies (E.entropy rand.new) (C.clock clock.new)) (caller_seen caller) (call_seen call.now) (reply_seen result) }
        ensures told { (reply_seen result).answer ≡ refused disk_fault → Rose self.old.log.disk.faults self.new.log.disk.faults }
        ensures kept { self.old.log.disk.faults ≤ self.new.log.disk.faults }
        ensures host { self.new.log.host ≡ self.old.log.host }
        ensures key { self.new.key ≡ self.old.key }
    {
        if is_read(call) {
            self.read(alloc, call)
        } else {
            self.write(alloc, caller, call, rand, clock)
        }
    }
}
