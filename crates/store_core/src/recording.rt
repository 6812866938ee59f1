//! Payloads that are recorded.

ghost use Rattle.std.specs.Prelude.{◌≡◌, ◌≢◌, ◌≤◌, ◌∷◌, ◌+◌, ℕ, List, [], take, drop, length, Some, None, IfOk};
ghost use Rattle.std.specs.Option.{option_map};
ghost use Rattle.definitions.specs.Counts.{Rose};
ghost use Rattle.definitions.specs.Spelling.{IsBytes};
ghost use Rattle.definitions.specs.Uses.{read_and_drew};
ghost use Rattle.payload_rules.specs.Payloads.{written_payload};
ghost use Rattle.payload_rules.specs.Payloads as rules;
ghost use Rattle.record_rules.specs.Records.{Entry};
ghost use Rattle.record_rules.specs.Journal.{RecordFits, chain};
ghost use Rattle.record_model.specs.Seen.{caller_seen, record_seen};
ghost use Rattle.model_words.specs.Seen.{result_seen};
ghost use Rattle.payload_forms.specs.Seen.{payload_seen};
ghost use Rattle.step_rules.specs.Answers.{refused, disk_fault};
ghost use Rattle.step_rules.specs.Calls.{Call};
ghost use Rattle.step_rules.specs.Sealing.{keyed_store};
ghost use Rattle.step_rules.specs.Step.{record_draft, draft_passes};
ghost use Rattle.record_seal.proofs.StoreSealing.{record_sealing};
ghost use Rattle.payload_records.specs.Heads.{most_written_bytes, record_for};
ghost use Rattle.chain_index.specs.Meaning.{is_taken};
ghost use Rattle.kept_views.specs.Rooms.{HoldsShown};
ghost use Rattle.page_growth.specs.Limits.{limit_seen};
ghost use Rattle.store_core.specs.Store.{IsStoreOf};
ghost use Rattle.store_core.specs.Recording.{IsDrawnOf, DrawsRecord, IsNextIdx, MayRecord};
ghost use Rattle.store_core.specs.Writing.{WrittenFrom, DraftWritten, MayWrite};

use crate::store::Store;
use at_edge::{Disk, DiskFault, Entropy, RandFault};
use kept_views::{EventRoom, reserve_payload};
use page_growth::{PassedLimit, limit_passed};
use payload_forms::Payload;
use payload_records::{Stamp, seal_payload, tag_of, weight};
use plain_types::NoMemory;
use record_model::{Answer, Caller, Event, Record, Refusal, new_id};
use std::alloc::Global;

/// What is drawn for a record: its id, and the random bytes of its seal.
#[derive(Drop)]
struct Drawn {
    id: u128,
    seal: [u8; 96],
}

/// The first ten of the bytes.
fn first_ten(bytes: &[u8; 106]) -> [u8; 10]
    ensures { result ≡ take 10 bytes.now }
{
    let mut ten = [0; 10];
    ten.copy_from_slice(&bytes[0..10]);
    ten
}

/// The bytes behind those.
fn behind_ten(bytes: &[u8; 106]) -> [u8; 96]
    ensures others { result ≡ drop 10 bytes.now }
    ensures are { IsBytes bytes.now }
{
    let mut others = [0; 96];
    others.copy_from_slice(&bytes[10..106]);
    others
}

/// An id made of this time and of ten bytes, and 96 bytes for a seal, all drawn at once.
///
/// # Errors
///
/// [`RandFault`], where the source's count rose. Nothing was drawn.
fn draw_record<E: Entropy>(rand: &mut E, now: u64) -> Result<Drawn, RandFault>
    ensures { DrawsRecord (E.entropy rand.old) (E.entropy rand.new) now result }
{
    let mut bytes = [0; 106];
    match rand.draw(&mut bytes) {
        Ok(()) => Ok(Drawn {
            id: new_id(now, &first_ten(&bytes)),
            seal: behind_ten(&bytes),
        }),
        Err(fault) => Err(fault),
    }
}

impl<D: Disk> Store<D> {
    /// The first of owner 0's limits that a record of the payload would pass, at this idx of its chain here. It takes no
    /// memory.
    fn record_passes(&self, alloc: Global, payload: &Payload, idx: u64) -> Option<PassedLimit>
        requires short { length (written_payload (payload_seen payload.now)) ≤ most_written_bytes }
        requires next { IsNextIdx self.now (payload_seen payload.now) idx }
        ensures { (key : List ℕ) (journal : List Entry) → IsStoreOf self.now journal [] → option_map limit_seen result ≡ draft_passes (keyed_store record_sealing self.now.log.host key) journal (record_draft None (payload_seen payload.now)) }
    {
        let held = self.tables.entries.index().held(0);
        limit_passed(held, weight(alloc, payload), idx == 0)
    }

    /// Makes room for what the payload shows. Nothing shows of it.
    ///
    /// # Errors
    ///
    /// [`NoMemory`]. The store stands for the same journal.
    fn reserve_shown(&mut self, alloc: Global, payload: &Payload) -> Result<EventRoom, NoMemory>
        requires settled { self.old.doubt ≡ None }
        ensures holds { IfOk result (λ room. HoldsShown self.new.tables.kept (Some (payload_seen payload.now)) room) }
        ensures same { (journal : List Entry) → IsStoreOf self.old journal [] → IsStoreOf self.new journal [] }
        ensures log { self.new.log ≡ self.old.log }
        ensures key { self.new.key ≡ self.old.key }
        ensures doubt { self.new.doubt ≡ None }
    {
        reserve_payload(alloc, &mut self.tables.kept, payload)
    }

    /// Whether a record has the id, whoever's it is. It takes no memory.
    fn has_record(&self, id: u128) -> bool
        ensures { (journal : List Entry) → IsStoreOf self.now journal [] → result ≡ is_taken journal id }
    {
        self.tables.entries.index().has_id(id)
    }

    /// The record of the payload with this stamp, sealed under the store's key.
    ///
    /// # Errors
    ///
    /// [`NoMemory`].
    fn seal_next(
        &self,
        alloc: Global,
        stamp: Stamp,
        payload: &Payload,
        drawn: &[u8; 96],
    ) -> Result<Record, NoMemory>
        requires keyed { self.now.key ≢ None }
        requires short { length (written_payload (payload_seen payload.now)) ≤ most_written_bytes }
        ensures made { IfOk result (λ r. (key : List ℕ) → self.now.key ≡ Some key → record_seen r ≡ record_for key stamp (payload_seen payload.now) drawn.now) }
        ensures fits { IfOk result (λ r. RecordFits (record_seen r)) }
        ensures opens { IfOk result (λ r. (key : List ℕ) → self.now.key ≡ Some key → (keyed_store record_sealing stamp.host key).opens (record_seen r) ≡ Some (payload_seen payload.now)) }
    {
        match &self.key {
            Some(key) => seal_payload(alloc, key, stamp, payload, drawn),
            None => unreachable!(),
        }
    }

    /// Records the payload at this time and idx of its chain here, with what was drawn. There is room for what it shows,
    /// and no limit is passed.
    ///
    /// # Errors
    ///
    /// [`Refusal::IdTaken`] exactly where a record has the id that was drawn; [`Refusal::DiskFault`], where the disk's
    /// count rose; and [`Refusal::NoMemory`]. After `DiskFault` the record is lost or in doubt, after each other refusal
    /// the journal is as it was.
    fn record_drawn(
        &mut self,
        alloc: Global,
        caller: Caller,
        closes: Option<u128>,
        payload: &Payload,
        stamp: Stamp,
        drawn: &[u8; 96],
        room: EventRoom,
    ) -> Result<Answer, Refusal>
        requires may { (key : List ℕ) × (journal : List Entry) × (call : Call) × MayRecord self.old key journal call closes (payload_seen payload.now) stamp.idx }
        requires drawn { (bytes : List ℕ) × IsDrawnOf stamp.timestamp bytes (record { id = stamp.id; seal = drawn.now }) }
        requires settled { self.old.doubt ≡ None }
        requires short { length (written_payload (payload_seen payload.now)) ≤ most_written_bytes }
        requires room { HoldsShown self.old.tables.kept (Some (payload_seen payload.now)) room }
        requires host { stamp.host ≡ self.old.log.host }
        ensures writes { (bytes : List ℕ) (key : List ℕ) (journal : List Entry) (call : Call) → IsDrawnOf stamp.timestamp bytes (record { id = stamp.id; seal = drawn.now }) → MayRecord self.old key journal call closes (payload_seen payload.now) stamp.idx → WrittenFrom self.old self.new key journal (caller_seen caller) call (read_and_drew stamp.timestamp bytes) (result_seen result) }
        ensures told { result_seen result ≡ refused disk_fault → Rose self.old.log.disk.faults self.new.log.disk.faults }
        ensures kept { self.old.log.disk.faults ≤ self.new.log.disk.faults }
        ensures host { self.new.log.host ≡ self.old.log.host }
        ensures key { self.new.key ≡ self.old.key }
    {
        if self.has_record(stamp.id) {
            return Err(Refusal::IdTaken { id: stamp.id });
        }
        let rec = self.seal_next(alloc, stamp, payload, drawn)?;
        let event = Event::Local { rec, closes };
        let (batch, bytes) = self.ready_one(alloc, caller, event, room)?;
        match self.commit(batch, bytes) {
            Ok(()) => Ok(Answer::Stored { idx: stamp.idx }),
            Err(DiskFault) => Err(Refusal::DiskFault),
        }
    }

    /// Records a payload at this time, which the clock gave, as owner 0's next of its chain here; it may close a command
    /// that runs. Where no limit would be passed, 106 bytes are drawn, ten for its id and 96 for its seal, and the record
    /// is committed. All memory for what it shows is taken before that.
    ///
    /// # Errors
    ///
    /// [`Refusal::Full`] exactly where it would pass a limit of owner 0, before anything is drawn;
    /// [`Refusal::RandFault`], where the source's count rose; [`Refusal::IdTaken`] exactly where a record has the id that
    /// was drawn; [`Refusal::DiskFault`], where the disk's count rose; and [`Refusal::NoMemory`]. After `DiskFault` the
    /// record is lost or in doubt, after each other refusal the journal is as it was.
    pub(crate) fn record<E: Entropy>(
        &mut self,
        alloc: Global,
        caller: Caller,
        closes: Option<u128>,
        payload: Payload,
        now: u64,
        rand: &mut E,
    ) -> Result<Answer, Refusal>
        requires writes { MayWrite self.old (record_draft closes (payload_seen payload)) }
        requires settled { self.old.doubt ≡ None }
        ensures writes { DraftWritten self.old self.new (E.entropy rand.old) (E.entropy rand.new) (caller_seen caller) (record_draft closes (payload_seen payload)) now (result_seen result) }
        ensures told { result_seen result ≡ refused disk_fault → Rose self.old.log.disk.faults self.new.log.disk.faults }
        ensures kept { self.old.log.disk.faults ≤ self.new.log.disk.faults }
        ensures host { self.new.log.host ≡ self.old.log.host }
        ensures key { self.new.key ≡ self.old.key }
    {
        let idx = self.count(0, self.host(), tag_of(&payload));
        if let Some(passed) = self.record_passes(alloc, &payload, idx) {
            return Err(Refusal::Full {
                what: passed.what,
                held: passed.held,
            });
        }
        let room = self.reserve_shown(alloc, &payload)?;
        let drawn = match draw_record(rand, now) {
            Ok(drawn) => drawn,
            Err(RandFault) => return Err(Refusal::RandFault),
        };
        let stamp = Stamp {
            id: drawn.id,
            idx,
            host: self.host(),
            timestamp: now,
        };
        self.record_drawn(alloc, caller, closes, &payload, stamp, &drawn.seal, room)
    }
}
