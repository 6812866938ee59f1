//! A session over the store that stands on a disk.

ghost use Rattle.std.specs.Prelude.{◌≡◌};
ghost use Rattle.session_seats.specs.Sessions.{pipe};
ghost use Rattle.call_supplies.specs.Supplies.{supplies};
ghost use Rattle.store_commands.specs.Piping.{status_of_session, status_of_pipe, Pipes};

use crate::ends::status_of_opening;
use at_edge::{Clock, Disk, Entropy, Served, SessionFail, Sink, Source};
use key_text::read_key_text;
use lone_store::LoneStore;
use session_seats::serve_alone;
use statuses::Status;
use std::alloc::Global;
use store_core::OpenFail;
use told_store::ToldStore;

/// Why a session wasn't held to the end of its source.
#[derive(Clone, Copy, Debug, PartialEq, Eq)]
pub enum PipeFail {
    /// The text of the key tells none. All was left alone.
    FaultyKeyText,
    /// No store was opened. Nothing but the disk was asked.
    Unopened(OpenFail),
    /// The session ended so.
    Ended(SessionFail),
}

impl PipeFail {
    /// What the system is told of it.
    pub fn status(self) -> Status
        ensures { result ≡ status_of_pipe self }
    {
        match self {
            PipeFail::FaultyKeyText => Status::FaultyKeyText,
            PipeFail::Unopened(fail) => status_of_opening(fail),
            PipeFail::Ended(fail) => status_of_session(fail),
        }
    }
}

fn status_of_session(fail: SessionFail) -> Status
    ensures { result ≡ status_of_session fail }
{
    match fail {
        SessionFail::SourceFault => Status::SourceFault,
        SessionFail::SinkFault => Status::SinkFault,
        SessionFail::CutFrame { .. } | SessionFail::FrameTooLong { .. } => Status::FaultyFrame,
        SessionFail::SessionLimit => Status::SessionLimit,
        SessionFail::NoMemory => Status::NoMemory,
    }
}

/// How `pipe` ended.
#[derive(Drop)]
pub struct Piped<D> {
    pub result: Result<(), PipeFail>,
    /// The disk that was handed in.
    pub disk: D,
}

/// Serves the requests that the source gives, over the store that stands on the disk and this text of its key, until the
/// source ends. It never waits but for the source and the sink. The disk then holds the journal that the session leaves.
///
/// A crash at any moment leaves the journal that the disk showed, with all that was answered before that moment; of the
/// request under way it leaves what is committed for it whole or not at all. Until the store is open it leaves nothing that
/// it might not have left before.
///
/// # Errors
///
/// [`PipeFail::FaultyKeyText`] exactly where the text tells no key, before anything else is asked; [`PipeFail::Unopened`], with
/// the cause for which no store was opened; [`PipeFail::Ended`], with the end of the session, up to which each request was
/// answered.
pub fn pipe<S: Source, K: Sink, D: Disk, E: Entropy, C: Clock>(
    alloc: Global,
    key_text: &[u8],
    disk: D,
    source: &mut S,
    sink: &mut K,
    rand: &mut E,
    clock: &mut C,
) -> Piped<D>
    ensures { Pipes result.result key_text.now (D.disk disk) (D.disk result.disk) (supplies (E.entropy rand.old) (C.clock clock.old)) (supplies (E.entropy rand.new) (C.clock clock.new)) (pipe (S.source source.old) (K.sink sink.old)) (pipe (S.source source.new) (K.sink sink.new)) }
{
    let Some(key) = read_key_text(key_text) else {
        return Piped {
            result: Err(PipeFail::FaultyKeyText),
            disk,
        };
    };
    let store = match ToldStore::open_on(alloc, disk, Some(key)) {
        Ok(store) => store,
        Err((fail, disk)) => {
            return Piped {
                result: Err(PipeFail::Unopened(fail)),
                disk,
            };
        }
    };
    let mut lone = LoneStore { alloc, store };
    match serve_alone(alloc, &mut lone, source, sink, rand, clock) {
        Ok(Served { .. }) => Piped {
            result: Ok(()),
            disk: lone.store.into_disk(),
        },
        Err(fail) => Piped {
            result: Err(PipeFail::Ended(fail)),
            disk: lone.store.into_disk(),
        },
    }
}
