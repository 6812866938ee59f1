//! The words for a log file: what bytes spell which events (`Body`), what bytes stand for which journal,
//! and which are no log or damaged at an offset (`Log`), how a body is read, and where it can't be
//! (`Reading`), also one that comes in pieces (`Pieces`), where a batch and an event stand (`Spots`),
//! what the entries of a log that is opened are (`Opened`), what bytes are found to hold by computing
//! (`Contents`); and the laws that hold of these words alone.
//!
//! A log is a header that names the host, then batches of 1 to 100 events, and last a gate byte 0, which
//! is closed. A batch is a gate byte that isn't 0, which is open, the length of the body, the body, and its
//! digest. Behind the closed gate any bytes may stand. So a batch is added by writing it behind the closed
//! gate and opening that gate: one byte decides whether it counts. That a crash leaves one of two journals
//! rests on gates alone; digests show bytes that were changed.
//!
//! The words speak of any form of a log, which is a digit in the header and a digest. There are two: the
//! current one, and the old one, whose batches have no digests, and which is only read.
//!
//! Each function has an empty body, and its contract is the law that its name says. The crate stands on
//! the words for journals, `record_rules`, and for the digest, `blake2b_core`; a number in a file is read
//! as `byteorder` reads it.
#![tactic(auto)]

ghost use Rattle.log_rules.specs.Laws.{OneEventBegins, OneBodyBegins, OneJournalStands, OpenGateAdds, ClosedGateHides, StandingIsALog, StandingIsWhole, DamagedIsALog, DamagedAtOne, FaultyHeader, StandingHeader, StandingHasHeader, DamagedHasHeader, ReadHeader, FormsApart, OneBatchAt, OneEventAt, LongerKeepsBatch, EventsWeighTheirBytes, LightEventsAreABatch, UnsoundIsDamaged, ReadBody, BodyIsRead, EventStaysRead, EventStaysWrong, WrongIsNoBody, LogIsFound, JournalIsFound, StoreIsShown};
ghost use Rattle.log_rules.specs.Examples.{WorkedBodies, WorkedFields, WorkedNewLog, WorkedFirstBatch, WorkedDigests, WorkedBodyFaults, WorkedContents};

/// Bytes begin with the spelling of at most one event.
pub fn one_event_begins()
    ensures { OneEventBegins }
{}

/// Bytes begin with the body of at most one list of events.
pub fn one_body_begins()
    ensures { OneBodyBegins }
{}

/// Bytes stand for at most one host and one list of events.
pub fn one_journal_stands()
    ensures { OneJournalStands }
{}

/// Behind the prefix of a journal's log, one more sound batch with its gate open and a closed gate: the
/// bytes stand for the journal with that batch.
pub fn open_gate_adds()
    ensures { OpenGateAdds }
{}

/// The same with the batch's gate closed, and whatever stands behind it: the bytes stand for the journal
/// alone, also where the batch is no sound one.
pub fn closed_gate_hides()
    ensures { ClosedGateHides }
{}

/// Bytes that stand for a journal have a header and a gate.
pub fn standing_is_a_log()
    ensures { StandingIsALog }
{}

/// Bytes that stand for a journal are damaged nowhere.
pub fn standing_is_whole()
    ensures { StandingIsWhole }
{}

/// Bytes that are damaged at an offset have a header and a gate.
pub fn damaged_is_a_log()
    ensures { DamagedIsALog }
{}

/// Bytes are damaged at no two offsets.
pub fn damaged_at_one()
    ensures { DamagedAtOne }
{}

/// Where an item of the header can't be read, the bytes are no log.
pub fn faulty_header()
    ensures { FaultyHeader }
{}

/// The header of bytes that stand for a journal can be read.
pub fn standing_header()
    ensures { StandingHeader }
{}

/// Bytes that stand for a journal of a host have that host's header.
pub fn standing_has_header()
    ensures { StandingHasHeader }
{}

/// Bytes that are damaged have the header of the host of the batches before the damaged one.
pub fn damaged_has_header()
    ensures { DamagedHasHeader }
{}

/// Where each item of the header can be read, the bytes have the header of the host that the 16 bytes
/// behind the magic are.
pub fn read_header()
    ensures { ReadHeader }
{}

/// Bytes with a header in one form have none in a form with another digit.
pub fn forms_apart()
    ensures { FormsApart }
{}

/// At a spot stands at most one batch.
pub fn one_batch_at()
    ensures { OneBatchAt }
{}

/// At a place in the batch of a spot stands at most one event.
pub fn one_event_at()
    ensures { OneEventAt }
{}

/// A log that got longer keeps its spots.
pub fn longer_keeps_batch()
    ensures { LongerKeepsBatch }
{}

/// An event weighs no less than it has bytes.
pub fn events_weigh_their_bytes()
    ensures { EventsWeighTheirBytes }
{}

/// Up to 100 events that weigh less than 2^32 - 4 bytes together are a batch, as those of a page.
pub fn light_events_are_a_batch()
    ensures { LightEventsAreABatch }
{}

/// Behind good batches one whose events may not follow them is damaged, though its bytes are whole.
pub fn unsound_is_damaged()
    ensures { UnsoundIsDamaged }
{}

/// What is read of bytes is a batch whose body they are.
pub fn read_body()
    ensures { ReadBody }
{}

/// Each batch is read from its body.
pub fn body_is_read()
    ensures { BodyIsRead }
{}

/// While a body comes in pieces, an event that was read from the first bytes is read with more bytes too.
pub fn event_stays_read()
    ensures { EventStaysRead }
{}

/// And a field that is wrong stays wrong.
pub fn event_stays_wrong()
    ensures { EventStaysWrong }
{}

/// Bytes with a field that can't be read are the body of no batch.
pub fn wrong_is_no_body()
    ensures { WrongIsNoBody }
{}

/// What bytes hold as a log is found by computing.
pub fn log_is_found()
    ensures { LogIsFound }
{}

/// Bytes that stand for a journal are found to be the log of its events.
pub fn journal_is_found()
    ensures { JournalIsFound }
{}

/// The callers of a journal, each with the event that the log's bytes show, are the journal.
pub fn store_is_shown()
    ensures { StoreIsShown }
{}

/// The bytes of a record that was made here and of one that was taken in, and how many events a batch has.
pub fn worked_bodies()
    ensures { WorkedBodies }
{}

/// Which events have bytes: numbers and texts at their limits, and one above.
pub fn worked_fields()
    ensures { WorkedFields }
{}

/// The 33 bytes of a new log, the places at which a header can't be read, and what is an old log or none.
pub fn worked_new_log()
    ensures { WorkedNewLog }
{}

/// The 91 bytes of an old log with one started command, with other gates, and damaged in four
/// ways.
pub fn worked_first_batch()
    ensures { WorkedFirstBatch }
{}

/// The 107 bytes of a log with one started command, and the same with one byte changed.
pub fn worked_digests()
    ensures { WorkedDigests }
{}

/// The places at which a body can't be read.
pub fn worked_body_faults()
    ensures { WorkedBodyFaults }
{}

/// What is found in the bytes of small logs: whose they are and of which events, or where they can't be
/// read.
pub fn worked_contents()
    ensures { WorkedContents }
{}
