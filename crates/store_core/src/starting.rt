//! A command that starts.

ghost use Rattle.std.specs.Prelude.{◌≡◌, ◌≤◌, ◌∷◌, List, [], None, IfOk};
ghost use Rattle.std.specs.Option.{option_map};
ghost use Rattle.definitions.specs.Counts.{Rose};
ghost use Rattle.record_rules.specs.Records.{Entry};
ghost use Rattle.record_rules.specs.Records as said;
ghost use Rattle.record_rules.specs.Journal.{StartedFits, first_limit_passed, events_of};
ghost use Rattle.record_model.specs.declared.entries.Event.TheVariants.{Started as started_event};
ghost use Rattle.record_model.specs.Seen.{caller_seen, started_seen};
ghost use Rattle.model_words.specs.Seen.{result_seen};
ghost use Rattle.started_commands.specs.Kept.{was_started};
ghost use Rattle.page_growth.specs.Limits.{limit_seen};
ghost use Rattle.step_rules.specs.Answers.{refused, disk_fault};
ghost use Rattle.step_rules.specs.Step.{start_draft};
ghost use Rattle.store_core.specs.Store.{entry_by, entries_of, IsStoreOf};
ghost use Rattle.store_core.specs.Commits.{MayMake, MayCommit};
ghost use Rattle.store_core.specs.Starting.{DrawsId};
ghost use Rattle.store_core.specs.Writing.{DraftWritten, MayWrite};

use crate::store::Store;
use at_edge::{Disk, DiskFault, Entropy, RandFault};
use page_growth::{PassedLimit, limit_passed};
use plain_types::{NoMemory, Text};
use record_log::Ready;
use record_model::{Answer, Caller, Event, Refusal, Started, new_id};
use std::alloc::Global;
use store_tables::Batch;

/// An id made of this time and of ten bytes, drawn at once.
///
/// # Errors
///
/// [`RandFault`], where the source's count rose. Nothing was drawn.
fn draw_id<E: Entropy>(rand: &mut E, now: u64) -> Result<u128, RandFault>
    ensures { DrawsId (E.entropy rand.old) (E.entropy rand.new) now result }
{
    let mut drawn = [0; 10];
    match rand.draw(&mut drawn) {
        Ok(()) => Ok(new_id(now, &drawn)),
        Err(fault) => Err(fault),
    }
}

impl<D: Disk> Store<D> {
    /// The first of owner 0's limits that a started command of this weight would pass. It takes no memory.
    fn start_passes(&self, weight: u64) -> Option<PassedLimit>
        ensures { (journal doubt : List Entry) → IsStoreOf self.now journal doubt → option_map limit_seen result ≡ first_limit_passed journal 0 weight None }
    {
        limit_passed(self.tables.entries.index().held(0), weight, false)
    }

    /// Makes room for the start of a command by the caller, and its bytes, to be committed next. Nothing shows of it.
    ///
    /// # Errors
    ///
    /// [`NoMemory`]. The store stands for the same journal.
    fn ready_start(
        &mut self,
        alloc: Global,
        caller: Caller,
        started: Started,
    ) -> Result<(Batch, Ready), NoMemory>
        requires fits { StartedFits (started_seen started) }
        requires settled { self.old.doubt ≡ None }
        ensures ready { IfOk result (λ made. (journal : List Entry) → MayMake self.old journal caller (started_event started ∷ []) → MayCommit self.new journal made.0 made.1) }
        ensures entries { IfOk result (λ made. entries_of made.0 ≡ entry_by (caller_seen caller) (started_event started) ∷ []) }
        ensures same { (journal : List Entry) → IsStoreOf self.old journal [] → IsStoreOf self.new journal [] }
        ensures log { self.new.log ≡ self.old.log }
        ensures key { self.new.key ≡ self.old.key }
    {
        let mut events = Vec::new(alloc);
        events.push(Event::Started(started))?;
        self.ready(alloc, caller, events)
    }

    /// Starts a command at this time, which the clock gave: ten bytes are drawn for its id, where no limit would be
    /// passed, and its start is committed.
    ///
    /// # Errors
    ///
    /// [`Refusal::Full`] exactly where it would pass a limit of owner 0, before anything is drawn;
    /// [`Refusal::RandFault`], where the source's count rose; [`Refusal::IdTaken`] exactly where a command was started
    /// with the id that was drawn; [`Refusal::DiskFault`], where the disk's count rose; and [`Refusal::NoMemory`]. After
    /// `DiskFault` the start is lost or in doubt, after each other refusal the journal is as it was.
    pub(crate) fn start<E: Entropy>(
        &mut self,
        alloc: Global,
        caller: Caller,
        command: Text,
        cwd: Text,
        session: Text,
        hostname: Text,
        now: u64,
        rand: &mut E,
    ) -> Result<Answer, Refusal>
        requires writes { MayWrite self.old (start_draft command cwd session hostname) }
        requires settled { self.old.doubt ≡ None }
        ensures writes { DraftWritten self.old self.new (E.entropy rand.old) (E.entropy rand.new) (caller_seen caller) (start_draft command cwd session hostname) now (result_seen result) }
        ensures told { result_seen result ≡ refused disk_fault → Rose self.old.log.disk.faults self.new.log.disk.faults }
        ensures kept { self.old.log.disk.faults ≤ self.new.log.disk.faults }
        ensures host { self.new.log.host ≡ self.old.log.host }
        ensures key { self.new.key ≡ self.old.key }
    {
        let mut started = Started {
            id: 0,
            timestamp: now,
            command,
            cwd,
            session,
            hostname,
        };
        match self.start_passes(started.weight()) {
            Some(passed) => {
                return Err(Refusal::Full {
                    what: passed.what,
                    held: passed.held,
                });
            }
            None => {}
        }
        let id = match draw_id(rand, now) {
            Ok(id) => id,
            Err(RandFault) => return Err(Refusal::RandFault),
        };
        if self.tables.kept.commands.is_known(id) {
            return Err(Refusal::IdTaken { id });
        }
        started.id = id;
        let (batch, bytes) = self.ready_start(alloc, caller, started)?;
        match self.commit(batch, bytes) {
            Ok(()) => Ok(Answer::Begun { id }),
            Err(DiskFault) => Err(Refusal::DiskFault),
        }
    }
}
