//! One turn of a session: a request in, its reply out.

ghost use Rattle.std.specs.Prelude.{◌≡◌, ◌≤◌, length, true};
ghost use Rattle.definitions.specs.Limits.{most_payload_bytes};
ghost use Rattle.call_supplies.specs.Supplies.{supplies};
ghost use Rattle.session_seats.specs.Sessions.{pipe};
ghost use Rattle.session_seats.specs.Turns.{TakesTurn};

use crate::CallStore;
use crate::answering::answer_frame;
use crate::frames::{FrameRead, read_frame};
use at_edge::{Clock, Entropy, Sink, Source, WriteFault, write_all};
use plain_types::Bytes;
use std::alloc::Global;

/// What one turn of a session did.
pub enum Turn {
    /// A request with a payload of this many bytes was read and answered, and the reply was written.
    Answered(usize),
    /// The source ended before a frame.
    End,
    /// The source ended inside a frame.
    Cut,
    /// The frame names a payload of this many bytes, over the limit.
    TooLong(u32),
    /// A read failed.
    SourceFailed,
    /// A request was read and answered, and a write of the reply failed.
    SinkFailed,
}

/// Reads a request into `buffer`, has the store answer it in the call of this number, and writes the reply.
pub fn take_turn<T: CallStore, S: Source, K: Sink, E: Entropy, C: Clock>(
    alloc: Global,
    store: &mut T,
    number: u64,
    source: &mut S,
    sink: &mut K,
    rand: &mut E,
    clock: &mut C,
    buffer: &mut [u8],
    frame: &mut Bytes,
) -> Turn
    requires key { (T.store store.old).fixed.has_key ≡ true }
    requires buffer { length buffer.old ≡ most_payload_bytes }
    requires room { 68 ≤ frame.old.reserved }
    ensures turn { TakesTurn number result (T.store store.old) (T.store store.new) (supplies (E.entropy rand.old) (C.clock clock.old)) (supplies (E.entropy rand.new) (C.clock clock.new)) (pipe (S.source source.old) (K.sink sink.old)) (pipe (S.source source.new) (K.sink sink.new)) }
    ensures reserved { frame.old.reserved ≤ frame.new.reserved }
{
    let length = match read_frame(source, buffer) {
        FrameRead::Payload(length) => length,
        FrameRead::End => return Turn::End,
        FrameRead::Cut => return Turn::Cut,
        FrameRead::TooLong(named) => return Turn::TooLong(named),
        FrameRead::Failed => return Turn::SourceFailed,
    };
    answer_frame(alloc, store, number, &buffer[..length], rand, clock, frame);
    match write_all(sink, frame.as_slice()) {
        Ok(()) => Turn::Answered(length),
        Err(WriteFault) => Turn::SinkFailed,
    }
}
