//! Whole sessions.

ghost use Rattle.std.specs.Prelude.{◌≡◌, ◌++◌, length, true, IfOk, Some, List, ℕ};
ghost use Rattle.definitions.specs.Frames.{CutAfter, frames};
ghost use Rattle.call_supplies.specs.Supplies.{supplies};
ghost use Rattle.session_seats.specs.Sessions.{most_requests, pipe, SeatServes, ServesAlone};
ghost use Rattle.session_seats.specs.Inputs.{IsEndOf};

use crate::CallStore;
use crate::frames::MOST_PAYLOAD_BYTES;
use crate::session::{Turn, take_turn};
use at_edge::{Clock, Entropy, Served, SessionFail, Sink, Source};
use plain_types::{Bytes, NoMemory};
use std::alloc::Global;

/// A session ends with the reply to this request.
pub const MOST_REQUESTS: u64 = 1_000_000;

/// The bytes of a reply's frame for which a session holds memory from the start: its length, and a reply that shows
/// neither a list nor a text.
const REPLY_ROOM: usize = 4 + 64;

/// This many bytes of memory.
fn zeros(alloc: Global, len: usize) -> Result<Vec<u8>, NoMemory>
    ensures { IfOk result (λ v. length v.items ≡ len) }
{
    let bytes = vec![in alloc; 0u8; len]?;
    Ok(bytes)
}

/// Serves requests until the source ends: reads a frame, has the store answer what its payload asks, writes the reply
/// in a frame, and only then reads on. The calls are numbered from 1. The store has a key.
///
/// # Errors
///
/// - [`SessionFail::SourceFault`]: a read failed, before a frame or inside one. Every frame before was answered;
/// - [`SessionFail::SinkFault`]: a write failed. The sink then holds the replies before the last one, and a part of
///   that; the store has answered it;
/// - [`SessionFail::CutFrame`]: the source ended inside the frame that begins at this byte;
/// - [`SessionFail::FrameTooLong`]: a frame names more than 1,048,576 bytes. Of it only the length was read;
/// - [`SessionFail::SessionLimit`]: request 1,000,000 was answered;
/// - [`SessionFail::NoMemory`]: before the first byte is read alone.
pub fn serve_frames<T: CallStore, S: Source, K: Sink, E: Entropy, C: Clock>(
    alloc: Global,
    store: &mut T,
    source: &mut S,
    sink: &mut K,
    rand: &mut E,
    clock: &mut C,
) -> Result<Served, SessionFail>
    requires key { (T.store store.old).fixed.has_key ≡ true }
    ensures { SeatServes result (T.store store.old) (T.store store.new) (supplies (E.entropy rand.old) (C.clock clock.old)) (supplies (E.entropy rand.new) (C.clock clock.new)) (pipe (S.source source.old) (K.sink sink.old)) (pipe (S.source source.new) (K.sink sink.new)) }
{
    let mut frame = Bytes::new(alloc);
    let Ok(()) = frame.reserve(REPLY_ROOM) else {
        return Err(SessionFail::NoMemory);
    };
    let Ok(mut buffer) = zeros(alloc, MOST_PAYLOAD_BYTES as usize) else {
        return Err(SessionFail::NoMemory);
    };
    let mut at = 0u64;
    for requests in 0..MOST_REQUESTS {
        match take_turn(
            alloc,
            store,
            requests + 1,
            source,
            sink,
            rand,
            clock,
            &mut buffer,
            &mut frame,
        ) {
            Turn::Answered(length) => at += 4 + length as u64,
            Turn::End => return Ok(Served { requests }),
            Turn::Cut => return Err(SessionFail::CutFrame { at }),
            Turn::TooLong(length) => return Err(SessionFail::FrameTooLong { length }),
            Turn::SourceFailed => return Err(SessionFail::SourceFault),
            Turn::SinkFailed => return Err(SessionFail::SinkFault),
        }
    }
    Err(SessionFail::SessionLimit)
}

/// Serves requests over a store that is lent alone: nobody else has turns at it until the session ends. It never waits
/// but for the source and the sink.
///
/// # Errors
///
/// As [`serve_frames`].
pub fn serve_alone<T: CallStore, S: Source, K: Sink, E: Entropy, C: Clock>(
    alloc: Global,
    store: &mut T,
    source: &mut S,
    sink: &mut K,
    rand: &mut E,
    clock: &mut C,
) -> Result<Served, SessionFail>
    requires key { (T.store store.old).fixed.has_key ≡ true }
    requires alone { (T.store store.old).fixed.alone ≡ true }
    ensures serves { ServesAlone result (T.store store.old) (T.store store.new) (supplies (E.entropy rand.old) (C.clock clock.old)) (supplies (E.entropy rand.new) (C.clock clock.new)) (pipe (S.source source.old) (K.sink sink.old)) (pipe (S.source source.new) (K.sink sink.new)) }
    // Where the source tells what is left in it, the end is that of those bytes, but for a fault and want of memory.
    ensures ends { (payloads : List (List ℕ)) (rest : List ℕ) → CutAfter most_requests payloads rest → (S.source source.old).left ≡ Some (frames payloads ++ rest) → IsEndOf result payloads rest }
{
    serve_frames(alloc, store, source, sink, rand, clock)
}
