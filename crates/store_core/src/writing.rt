//! A writing call: what is in doubt is settled, and the call is a step from there.

ghost use Rattle.std.specs.Prelude.{◌≡◌, ◌≢◌, ◌≤◌, List, [], None, false};
ghost use Rattle.definitions.specs.Counts.{Rose};
ghost use Rattle.record_rules.specs.Records.{Entry};
ghost use Rattle.record_model.specs.Seen.{caller_seen};
ghost use Rattle.model_words.specs.Seen.{call_seen, result_seen, reply_seen};
ghost use Rattle.step_rules.specs.Calls.{CallFits, is_read};
ghost use Rattle.step_rules.specs.Answers.{refused, disk_fault};
ghost use Rattle.call_supplies.specs.Supplies.{supplies};
ghost use Rattle.store_core.specs.Store.{IsStoreOf};
ghost use Rattle.store_core.specs.Calls.{AsksUsing};
ghost use Rattle.store_core.specs.Writing.{replied, CallWritten};

use crate::store::Store;
use at_edge::{Clock, Disk, DiskFault, Entropy};
use call_drafts::{Draft, draft, too_long};
use record_model::{Answer, Call, Caller, Refusal, Reply};
use std::alloc::Global;

impl<D: Disk> Store<D> {
    /// The reply with this answer, at the front of the journal as it is now. It takes no memory.
    pub(crate) fn reply(&self, answered: Result<Answer, Refusal>) -> Reply
        ensures front { (journal doubt : List Entry) → IsStoreOf self.now journal doubt → reply_seen result ≡ replied journal (result_seen answered) }
        ensures answer { result.result ≡ answered }
    {
        Reply {
            front: self.front(),
            result: answered,
        }
    }

    /// Makes a writing call at this time, which the clock gave, with nothing in doubt.
    ///
    /// # Errors
    ///
    /// Each refusal that a writing call may get. After [`Refusal::DiskFault`], which comes only where the disk's count
    /// rose, what the call adds is lost or in doubt; after each other one the journal is as it was.
    fn write_settled<E: Entropy>(
        &mut self,
        alloc: Global,
        caller: Caller,
        call: &Call,
        now: u64,
        rand: &mut E,
    ) -> Result<Answer, Refusal>
        requires key { self.old.key ≢ None }
        requires asks { is_read (call_seen call.now) ≡ false }
        requires fits { CallFits (call_seen call.now) }
        requires means { (journal : List Entry) × IsStoreOf self.old journal [] }
        requires settled { self.old.doubt ≡ None }
        ensures writes { CallWritten self.old self.new (E.entropy rand.old) (E.entropy rand.new) (caller_seen caller) (call_seen call.now) now (result_seen result) }
        ensures told { result_seen result ≡ refused disk_fault → Rose self.old.log.disk.faults self.new.log.disk.faults }
        ensures kept { self.old.log.disk.faults ≤ self.new.log.disk.faults }
        ensures host { self.new.log.host ≡ self.old.log.host }
        ensures key { self.new.key ≡ self.old.key }
    {
        match too_long(call) {
            Some(long) => Err(Refusal::TooLong {
                field: long.field,
                length: long.length,
            }),
            None => match draft(alloc, &self.tables.kept, call) {
                Ok(
                    Draft::Start {
                        command,
                        cwd,
                        session,
                        hostname,
                    },
                ) => self.start(alloc, caller, command, cwd, session, hostname, now, rand),
                Ok(Draft::Record { closes, payload }) => {
                    self.record(alloc, caller, closes, payload, now, rand)
                }
                Err(refusal) => Err(refusal),
            },
        }
    }

    /// Makes a writing call: the clock is read, once; what is in doubt is settled, or the call is told of a fault of the
    /// disk; and the call is a step from there.
    pub(crate) fn write<E: Entropy, C: Clock>(
        &mut self,
        alloc: Global,
        caller: Caller,
        call: &Call,
        rand: &mut E,
        clock: &mut C,
    ) -> Reply
        requires key { self.old.key ≢ None }
        requires asks { is_read (call_seen call.now) ≡ false }
        requires fits { CallFits (call_seen call.now) }
        requires means { (journal : List Entry) × (doubt : List Entry) × IsStoreOf self.old journal doubt }
        ensures asks { AsksUsing self.old self.new (supplies (E.entropy rand.old) (C.clock clock.old)) (supplies (E.entropy rand.new) (C.clock clock.new)) (caller_seen caller) (call_seen call.now) (reply_seen result) }
        ensures told { (reply_seen result).answer ≡ refused disk_fault → Rose self.old.log.disk.faults self.new.log.disk.faults }
        ensures kept { self.old.log.disk.faults ≤ self.new.log.disk.faults }
        ensures host { self.new.log.host ≡ self.old.log.host }
        ensures key { self.new.key ≡ self.old.key }
    {
        let now = clock.now();
        match self.settle() {
            Ok(()) => {
                let answered = self.write_settled(alloc, caller, call, now, rand);
                self.reply(answered)
            }
            Err(DiskFault) => self.reply(Err(Refusal::DiskFault)),
        }
    }
}
