//! Frames that come in: the length of a payload in four bytes, in big order, then the payload.

ghost use Rattle.std.specs.Prelude.{◌≡◌, ◌≤◌, length};
ghost use Rattle.std.specs.Int.{w32, to_be_bytes};
ghost use Rattle.definitions.specs.Limits.{most_payload_bytes};
ghost use Rattle.session_seats.specs.Frames.{ReadsFrame, ReadsLength, ReadsPayload};

use at_edge::{Filled, Source, fill};

/// The most bytes that a request's payload may have.
pub const MOST_PAYLOAD_BYTES: u32 = 1_048_576;

/// What reading a frame found.
pub enum FrameRead {
    /// A payload of this many bytes, at the buffer's front.
    Payload(usize),
    /// The source ended before a frame.
    End,
    /// The source ended inside a frame.
    Cut,
    /// The frame names a payload of this many bytes, over the limit. Nothing behind its length was read.
    TooLong(u32),
    /// A read failed.
    Failed,
}

/// What reading a frame's length found.
enum LengthRead {
    Length(u32),
    End,
    Cut,
    Failed,
}

/// The number that four bytes in big order stand for.
fn number_of(head: &[u8; 4]) -> u32
    ensures { head.now ≡ to_be_bytes w32 result }
{
    u32::from_be_bytes(*head)
}

/// Reads the four bytes of a frame's length.
fn read_length<S: Source>(source: &mut S) -> LengthRead
    ensures { ReadsLength result (S.source source.old) (S.source source.new) }
{
    let mut head = [0; 4];
    match fill(source, &mut head) {
        Filled::Full => LengthRead::Length(number_of(&head)),
        Filled::EndAfter(0) => LengthRead::End,
        Filled::EndAfter(_) => LengthRead::Cut,
        Filled::FailedAfter(_) => LengthRead::Failed,
    }
}

/// Reads the payload behind a length.
fn read_payload<S: Source>(source: &mut S, named: u32, buffer: &mut [u8]) -> FrameRead
    requires { length buffer.old ≡ most_payload_bytes }
    ensures { ReadsPayload named result (S.source source.old) (S.source source.new) buffer.new }
{
    if named > MOST_PAYLOAD_BYTES {
        return FrameRead::TooLong(named);
    }
    let length = named as usize;
    match fill(source, &mut buffer[..length]) {
        Filled::Full => FrameRead::Payload(length),
        Filled::EndAfter(_) => FrameRead::Cut,
        Filled::FailedAfter(_) => FrameRead::Failed,
    }
}

/// Reads the next frame into a buffer of `MOST_PAYLOAD_BYTES`.
pub fn read_frame<S: Source>(source: &mut S, buffer: &mut [u8]) -> FrameRead
    requires { length buffer.old ≡ most_payload_bytes }
    ensures { ReadsFrame result (S.source source.old) (S.source source.new) buffer.new }
{
    match read_length(source) {
        LengthRead::Length(length) => read_payload(source, length, buffer),
        LengthRead::End => FrameRead::End,
        LengthRead::Cut => FrameRead::Cut,
        LengthRead::Failed => FrameRead::Failed,
    }
}
