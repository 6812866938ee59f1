//! Sealing and opening a record, for C.

ghost use Rattle.std.specs.Prelude.{◌≡◌, ◌+◌, ◌<◌, ◌≤◌, ◌^◌, ◌++◌, length, drop, IfOk};
ghost use Rattle.record_model.specs.Seen.{record_seen};
ghost use Rattle.record_seal.specs.Seals.{seal_of, OpensToBytes};
ghost use Rattle.record_seal.specs.Seen.{head_seen, seal_seen};
ghost use Rattle.bench_c.specs.Sealing.{bench_head, bench_record, LeavesSeal, LeavesPayload};

use plain_types::{Bytes, NoMemory, Text};
use record_model::Record;
use record_seal::{Head, SealFail, Sealed, seal, unseal};
use std::alloc::Global;

/// The head of record id 1 of host 1, version `v0`, tag `history`.
fn head(alloc: Global, idx: u64) -> Result<Head, NoMemory>
    ensures { IfOk result (λ made. head_seen made ≡ bench_head idx) }
{
    Ok(Head {
        id: 1,
        idx,
        version: Text::copied(alloc, b"v0")?,
        tag: Text::copied(alloc, b"history")?,
        host: 1,
    })
}

/// A key of 32 bytes.
fn whole_key(key: &[u8]) -> [u8; 32]
    requires { length key.now ≡ 32 }
    ensures { result ≡ key.now }
{
    let mut whole = [0; 32];
    whole.copy_from_slice(key);
    whole
}

/// Seals a payload.
fn sealed(
    alloc: Global,
    key: &[u8],
    drawn: &[u8],
    idx: u64,
    payload: &[u8],
) -> Result<Sealed, NoMemory>
    requires key { length key.now ≡ 32 }
    requires drawn { length drawn.now ≡ 96 }
    requires payload { length payload.now < 2 ^ 30 }
    ensures { IfOk result (λ made. seal_seen made ≡ seal_of key.now (bench_head idx) payload.now drawn.now) }
{
    let mut bytes = [0; 96];
    bytes.copy_from_slice(drawn);
    seal(alloc, &whole_key(key), &head(alloc, idx)?, payload, &bytes)
}

/// Writes two texts, one after the other, over the first bytes of `out`.
fn write_pair(first: &[u8], second: &[u8], out: &mut [u8])
    requires { length first.now + length second.now ≤ length out.old }
    ensures { out.new ≡ first.now ++ (second.now ++ drop (length first.now + length second.now) out.old) }
{
    let (front, rest) = out.split_at_mut(first.len());
    front.copy_from_slice(first);
    rest[..second.len()].copy_from_slice(second);
}

/// Seals `payload` as index `idx` in the chain of host 1, as record id 1 of version `v0` and tag `history`, by the 96
/// bytes `drawn`. `out` begins with the sealed text and then the wrapped one; the answer is the first one's length in
/// the high and the second one's in the low 32 bits. It is 0, and `out` stays as it was, where the key hasn't 32 bytes or
/// `drawn` 96, the payload has 2^30 or more, `out` is too short, or there is no memory.
#[unsafe(no_mangle)]
pub extern "C" fn bench_seal(
    alloc: Global,
    key: &[u8],
    drawn: &[u8],
    idx: u64,
    payload: &[u8],
    out: &mut [u8],
) -> u64
    ensures { LeavesSeal key.now drawn.now idx payload.now out.old result out.new }
{
    if key.len() != 32 || drawn.len() != 96 || payload.len() >= 1 << 30 {
        return 0;
    }
    let Ok(made) = sealed(alloc, key, drawn, idx, payload) else {
        return 0;
    };
    let (first, second) = (made.sealed.as_bytes(), made.wrapped.as_bytes());
    if out.len() < first.len() + second.len() {
        return 0;
    }
    write_pair(first, second, out);
    first.len() as u64 * (1 << 32) + second.len() as u64
}

/// The record of two texts, which are UTF-8.
fn record(alloc: Global, idx: u64, sealed: &str, wrapped: &str) -> Result<Record, NoMemory>
    requires sealed { length sealed.now < 2 ^ 32 }
    requires wrapped { length wrapped.now < 2 ^ 32 }
    ensures { IfOk result (λ rec. record_seen rec ≡ bench_record idx sealed.now wrapped.now) }
{
    let Head {
        id,
        idx,
        version,
        tag,
        host,
    } = head(alloc, idx)?;
    Ok(Record {
        id,
        idx,
        host,
        host_name: Text::new(alloc),
        timestamp: 0,
        version,
        tag,
        sealed: Text::copied(alloc, sealed.as_bytes())?,
        wrapped: Text::copied(alloc, wrapped.as_bytes())?,
    })
}

/// Opens the record of two texts.
fn opened(
    alloc: Global,
    key: &[u8; 32],
    idx: u64,
    sealed: &[u8],
    wrapped: &[u8],
) -> Result<Bytes, SealFail>
    requires sealed { length sealed.now < 2 ^ 32 }
    requires wrapped { length wrapped.now < 2 ^ 32 }
    ensures { IfOk result (λ payload. OpensToBytes key.now (bench_record idx sealed.now wrapped.now) payload.items) }
{
    let (Ok(sealed), Ok(wrapped)) = (str::from_utf8(sealed), str::from_utf8(wrapped)) else {
        return Err(SealFail::BadSeal);
    };
    let rec = record(alloc, idx, sealed, wrapped)?;
    unseal(alloc, key, &rec)
}

/// Opens the record of two texts that stands as index `idx` where [`bench_seal`] has it, and writes its payload over the
/// first bytes of `out`. It answers the payload's length. It answers 0, and `out` stays as it was, where the key hasn't 32
/// bytes, the record opens to nothing, `out` is too short, or there is no memory.
#[unsafe(no_mangle)]
pub extern "C" fn bench_unseal(
    alloc: Global,
    key: &[u8],
    idx: u64,
    sealed: &[u8],
    wrapped: &[u8],
    out: &mut [u8],
) -> u64
    ensures { LeavesPayload key.now idx sealed.now wrapped.now out.old result out.new }
{
    if key.len() != 32 || sealed.len() >= 1 << 32 || wrapped.len() >= 1 << 32 {
        return 0;
    }
    let Ok(payload) = opened(alloc, &whole_key(key), idx, sealed, wrapped) else {
        return 0;
    };
    if out.len() < payload.len() {
        return 0;
    }
    out[..payload.len()].copy_from_slice(payload.as_slice());
    payload.len() as u64
}
