//! A batch's events, each checked once its bytes are there.

ghost use Rattle.std.specs.Prelude.{◌≡◌, ◌⊎◌, ◌+◌, ℕ, List, length, OnOk};
ghost use Rattle.record_rules.specs.Records as kept;
ghost use Rattle.log_rules.specs.Pieces.{Awaits, Over, next_in};
ghost use Rattle.record_model.specs.Seen.{event_seen};
ghost use Rattle.journal_check.specs.Tallies.{Keeps};
ghost use Rattle.journal_check.specs.Admission.{Takes};
ghost use Rattle.log_check.specs.Checking.{HasChecked, TakesEvents};

use journal_check::JournalCheck;
use log_format::{BodyReader, FormatFail};
use plain_types::NoMemory;
use record_model::Event;
use std::alloc::Global;

/// Why a batch isn't taken.
#[derive(Clone, Copy, Debug, PartialEq, Eq)]
pub(crate) enum BatchFail {
    /// No good batch stands there.
    Bad,
    /// A call of the disk failed.
    DiskFault,
    /// Memory ran out.
    NoMemory,
}

/// Whether the event may come next; it is dropped then.
fn admit(alloc: Global, check: &mut JournalCheck, event: Event) -> Result<bool, NoMemory>
    ensures takes { (journal : List kept.Entry) → Keeps check.old journal → Takes result check.old.host journal (event_seen event) check.new }
    ensures host { check.new.host ≡ check.old.host }
{
    check.take(alloc, &event)
}

/// Takes the events whose bytes are there, and checks each.
pub(crate) fn take_events(
    alloc: Global,
    reader: &mut BodyReader,
    check: &mut JournalCheck,
) -> Result<(), BatchFail>
    ensures takes { (limit : ℕ) (before : List kept.Event) (bytes : List ℕ) → HasChecked limit before bytes reader.old check.old → TakesEvents result limit check.old.host before bytes reader.new check.new }
    ensures awaits { OnOk result ((next_in reader.new ≡ Awaits) ⊎ (next_in reader.new ≡ Over)) }
    ensures place { OnOk result (reader.new.reading.at + length reader.new.reading.rest ≡ reader.old.reading.at + length reader.old.reading.rest) }
    ensures limit { OnOk result (reader.new.reading.limit ≡ reader.old.reading.limit) }
    ensures host { check.new.host ≡ check.old.host }
{
    loop {
        let event = match reader.next(alloc) {
            Ok(Some(event)) => event,
            Ok(None) => return Ok(()),
            Err(FormatFail::Wrong { .. }) => return Err(BatchFail::Bad),
            Err(FormatFail::NoMemory) => return Err(BatchFail::NoMemory),
        };
        match admit(alloc, check, event) {
            Ok(true) => {}
            Ok(false) => return Err(BatchFail::Bad),
            Err(_) => return Err(BatchFail::NoMemory),
        }
    }
}
