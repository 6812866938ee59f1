//! Reading and writing payloads, for C.

ghost use Rattle.std.specs.Prelude.{◌≡◌, ◌<◌, ◌^◌};
ghost use Rattle.payload_forms.specs.Seen.{payload_seen};
ghost use Rattle.payload_forms.specs.Writing.{text_total};
ghost use Rattle.bench_c.specs.Payloads.{is_command, TellsCreation, TellsLength, TellsWritten};

use payload_forms::{Payload, read_payload, write_payload};
use std::alloc::Global;

/// Whether the payload is a command that ended.
fn is_creation(payload: &Payload) -> bool
    ensures { result ≡ is_command (payload_seen payload.now) }
{
    match payload {
        Payload::HistoryCreate(_) => true,
        _ => false,
    }
}

/// Reads the creation of a command, under tag `history` and version `v0`, to its parts, whose texts are copied. It answers
/// 1, and 0 where the bytes aren't such a creation or there is no memory.
#[unsafe(no_mangle)]
pub extern "C" fn bench_payload_read(alloc: Global, bytes: &[u8]) -> u64
    ensures { TellsCreation bytes.now result }
{
    match read_payload(alloc, b"history", b"v0", bytes) {
        Ok(payload) => { if is_creation(&payload) { 1 } else { 0 } }
        Err(_) => 0,
    }
}

/// Writes a payload, and answers how many bytes it has; 0 where there is no memory.
fn written_len(alloc: Global, payload: &Payload) -> u64
    requires { text_total (payload_seen payload.now) < 2 ^ 31 }
    ensures { TellsLength (payload_seen payload.now) result }
{
    match write_payload(alloc, payload) {
        Ok(bytes) => bytes.len() as u64,
        Err(_) => 0,
    }
}

/// Reads the creation of a command as [`bench_payload_read`] does, and then writes it so many times. It answers the length of
/// what was written last, and 0 where nothing was read or written, the bytes are 2^31 or more, or there is no memory.
#[unsafe(no_mangle)]
pub extern "C" fn bench_payload_write(alloc: Global, bytes: &[u8], times: u64) -> u64
    ensures { TellsWritten bytes.now result }
{
    if bytes.len() >= 1 << 31 {
        return 0;
    }
    let Ok(payload) = read_payload(alloc, b"history", b"v0", bytes) else {
        return 0;
    };
    if !is_creation(&payload) {
        return 0;
    }
    let mut len = 0;
    for _turn in 0..times {
        len = written_len(alloc, &payload);
    }
    len
}
