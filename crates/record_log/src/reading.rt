//! Batches and events that are read back. A batch's length and the first bytes of its body are read at once, so that most
//! batches take one read of the disk.

ghost use Rattle.std.specs.Prelude.{◌≡◌, ◌≤◌, ◌<◌, ◌+◌, ◌^◌, ℕ, length, take, drop, IfOk, IfSome, IfNone};
ghost use Rattle.std.specs.Int.{w32, from_be_bytes};
ghost use Rattle.record_model.specs.Seen.{event_seen, events_seen};
ghost use Rattle.log_rules.specs.Body.{body_bytes};
ghost use Rattle.disk_rules.specs.Append.{Begins};
ghost use Rattle.at_edge.specs.Storing.{Tells, Rests};
ghost use Rattle.log_check.specs.Forms.{form_of, digest_bytes};
ghost use Rattle.record_log.specs.Reading.{BatchIn, BatchBefore, SomeBatch, SomeEvent, EventBefore, OpensHere, gate_behind, IsWholeBatch, IsBody, BodyThere, HasBody, IsBatchOf, StartsBehind, first_count, ReadCause};

use crate::spots::Spot;
use at_edge::Disk;
use log_check::LogForm;
use log_format::{FormatFail, read_batch};
use record_model::Event;
use std::alloc::{AllocError, Global};

/// The most bytes behind a gate that are read at first.
const FIRST_BYTES: u32 = 1_024;

/// Why nothing was read.
#[derive(Clone, Copy, Debug, PartialEq, Eq)]
pub enum ReadFail {
    /// A call of the disk failed, or it gave what no disk that tells can have shown.
    DiskFault,
    /// Memory ran out.
    NoMemory,
}

pub(crate) fn zeros(alloc: Global, count: usize) -> Result<Vec<u8>, AllocError>
    ensures { IfOk result (λ bytes. length bytes.items ≡ count) }
{
    Ok(vec![in alloc; 0; count]?)
}

/// So many bytes from the offset on.
fn read_bytes<D: Disk>(
    alloc: Global,
    disk: &mut D,
    at: u64,
    count: u32,
) -> Result<Vec<u8>, ReadFail>
    requires { Tells (D.disk disk.old) (λ d. at + count ≤ length d.shows) }
    ensures shown { IfOk result (λ bytes. Tells (D.disk disk.old) (λ d. bytes.items ≡ take count (drop at d.shows))) }
    ensures long { IfOk result (λ bytes. length bytes.items ≡ count) }
    ensures rests { Rests (D.disk disk.old) (D.disk disk.new) }
    ensures cause { ReadCause result (D.disk disk.old) (D.disk disk.new) }
{
    let mut bytes = match zeros(alloc, count as usize) {
        Ok(bytes) => bytes,
        Err(_) => return Err(ReadFail::NoMemory),
    };
    match disk.read_at(at, &mut bytes) {
        Ok(()) => Ok(bytes),
        Err(_) => Err(ReadFail::DiskFault),
    }
}

// ---- a body

/// The events of this body, which the disk gave.
fn events_of<D: Disk>(
    alloc: Global,
    disk: &mut D,
    body: &[u8],
    count: u32,
) -> Result<Vec<Event>, ReadFail>
    requires whole { Tells (D.disk disk.old) (λ _. IsBody body.now) }
    requires long { length body.now ≡ count }
    ensures events { IfOk result (λ events. body.now ≡ body_bytes (events_seen events.items)) }
    ensures batch { IfOk result (λ events. IsBatchOf count (events_seen events.items)) }
    ensures rests { Rests (D.disk disk.old) (D.disk disk.new) }
    ensures cause { ReadCause result (D.disk disk.old) (D.disk disk.new) }
{
    match read_batch(alloc, body) {
        Ok(events) => Ok(events),
        Err(FormatFail::Wrong { .. }) => {
            disk.disown();
            Err(ReadFail::DiskFault)
        }
        Err(FormatFail::NoMemory) => Err(ReadFail::NoMemory),
    }
}

/// The events of the batch at this spot.
fn read_events<D: Disk>(alloc: Global, disk: &mut D, spot: Spot) -> Result<Vec<Event>, ReadFail>
    requires { Tells (D.disk disk.old) (λ d. BodyThere spot.offset spot.count d.shows) }
    ensures events { IfOk result (λ events. Tells (D.disk disk.old) (λ d. HasBody spot.offset spot.count d.shows (events_seen events.items))) }
    ensures batch { IfOk result (λ events. IsBatchOf spot.count (events_seen events.items)) }
    ensures rests { Rests (D.disk disk.old) (D.disk disk.new) }
    ensures cause { ReadCause result (D.disk disk.old) (D.disk disk.new) }
{
    let at = spot.offset.saturating_add(5);
    let bytes = match read_bytes(alloc, disk, at, spot.count) {
        Ok(bytes) => bytes,
        Err(fail) => return Err(fail),
    };
    match events_of(alloc, disk, &bytes, spot.count) {
        Ok(events) => Ok(events),
        Err(fail) => Err(fail),
    }
}

/// The same of a batch that stands before the closed gate.
fn read_spot<D: Disk>(
    alloc: Global,
    disk: &mut D,
    gate: u64,
    spot: Spot,
) -> Result<Vec<Event>, ReadFail>
    requires { Tells (D.disk disk.old) (λ d. SomeBatch gate d.shows spot) }
    ensures events { IfOk result (λ events. Tells (D.disk disk.old) (λ d. BatchBefore gate d.shows spot (events_seen events.items))) }
    ensures rests { Rests (D.disk disk.old) (D.disk disk.new) }
    ensures cause { ReadCause result (D.disk disk.old) (D.disk disk.new) }
{
    match read_events(alloc, disk, spot) {
        Ok(events) => Ok(events),
        Err(fail) => Err(fail),
    }
}

/// The event at that place in the batch.
pub(crate) fn read_one<D: Disk>(
    alloc: Global,
    disk: &mut D,
    gate: u64,
    spot: Spot,
    at: u32,
) -> Result<Event, ReadFail>
    requires { Tells (D.disk disk.old) (λ d. SomeEvent gate d.shows spot at) }
    ensures event { IfOk result (λ event. Tells (D.disk disk.old) (λ d. EventBefore gate d.shows spot at (event_seen event))) }
    ensures rests { Rests (D.disk disk.old) (D.disk disk.new) }
    ensures cause { ReadCause result (D.disk disk.old) (D.disk disk.new) }
{
    let mut events = match read_spot(alloc, disk, gate, spot) {
        Ok(events) => events,
        Err(fail) => return Err(fail),
    };
    let at = at as usize;
    if at < events.len() {
        return Ok(events.swap_remove(at));
    }
    disk.disown();
    Err(ReadFail::DiskFault)
}

// ---- a batch by its gate

/// How many bytes are read at first behind the gate at this offset.
fn count_first(gate: u64, offset: u64) -> u32
    ensures { result ≡ first_count gate offset 1024 }
{
    let left = gate.saturating_sub(offset.saturating_add(1));
    if left < u64::from(FIRST_BYTES) {
        left as u32
    } else {
        FIRST_BYTES
    }
}

/// The first bytes behind the gate at this offset, of those before the closed gate.
fn read_first<D: Disk>(
    alloc: Global,
    disk: &mut D,
    gate: u64,
    offset: u64,
) -> Result<Vec<u8>, ReadFail>
    requires { Tells (D.disk disk.old) (λ d. (offset + 5 ≤ gate) × (gate ≤ length d.shows)) }
    ensures first { IfOk result (λ bytes. Tells (D.disk disk.old) (λ d. StartsBehind offset bytes.items d.shows)) }
    ensures rests { Rests (D.disk disk.old) (D.disk disk.new) }
    ensures cause { ReadCause result (D.disk disk.old) (D.disk disk.new) }
{
    let behind = offset.saturating_add(1);
    let count = count_first(gate, offset);
    match read_bytes(alloc, disk, behind, count) {
        Ok(bytes) => Ok(bytes),
        Err(fail) => Err(fail),
    }
}

/// The number in the first four of these bytes, and those behind it. `None` where they are fewer.
fn head_of(bytes: &[u8]) -> Option<(u32, &[u8])>
    ensures number { IfSome result (λ head. head.0 ≡ from_be_bytes w32 (take 4 bytes.now)) }
    ensures behind { IfSome result (λ head. head.1.now ≡ drop 4 bytes.now) }
    ensures none { IfNone result (length bytes.now < 4) }
{
    match bytes.split_first_chunk::<4>() {
        Some((number, behind)) => Some((u32::from_be_bytes(*number), behind)),
        None => None,
    }
}

/// The bytes of a batch beside its body: its gate, its length, and its digest.
fn count_beside(form: LogForm) -> u64
    ensures { result ≡ 5 + digest_bytes form }
{
    match form {
        LogForm::Current => 21,
        LogForm::Old => 5,
    }
}

/// The offset of the gate behind a batch of this form, whose gate and whose body's length are these.
fn next_gate(form: LogForm, offset: u64, count: u32) -> u64
    ensures { result ≡ gate_behind form offset count }
{
    let behind = offset.saturating_add(count_beside(form));
    behind.saturating_add(u64::from(count))
}

/// The events of the batch at this spot, of whose body these bytes are the first, or all and more.
fn read_rest<D: Disk>(
    alloc: Global,
    disk: &mut D,
    spot: Spot,
    ahead: &[u8],
) -> Result<Vec<Event>, ReadFail>
    requires there { Tells (D.disk disk.old) (λ d. BodyThere spot.offset spot.count d.shows) }
    requires ahead { Tells (D.disk disk.old) (λ d. Begins ahead.now (drop (spot.offset + 5) d.shows)) }
    ensures events { IfOk result (λ events. Tells (D.disk disk.old) (λ d. HasBody spot.offset spot.count d.shows (events_seen events.items))) }
    ensures batch { IfOk result (λ events. IsBatchOf spot.count (events_seen events.items)) }
    ensures rests { Rests (D.disk disk.old) (D.disk disk.new) }
    ensures cause { ReadCause result (D.disk disk.old) (D.disk disk.new) }
{
    let count = spot.count as usize;
    if ahead.len() < count {
        return match read_events(alloc, disk, spot) {
            Ok(events) => Ok(events),
            Err(fail) => Err(fail),
        };
    }
    let body = &ahead[..count];
    match events_of(alloc, disk, body, spot.count) {
        Ok(events) => Ok(events),
        Err(fail) => Err(fail),
    }
}

/// The batch whose gate stands at this offset, before the closed gate, where it stands, and the offset of the next gate.
pub(crate) fn read_batch_at<D: Disk>(
    alloc: Global,
    disk: &mut D,
    form: LogForm,
    gate: u64,
    offset: u64,
) -> Result<(Vec<Event>, Spot, u64), ReadFail>
    requires { Tells (D.disk disk.old) (λ d. OpensHere (form_of form) gate offset d.shows) }
    ensures offset { IfOk result (λ found. found.1.offset ≡ offset) }
    ensures next { IfOk result (λ found. found.2 ≡ gate_behind form offset found.1.count) }
    ensures whole { IfOk result (λ found. IsWholeBatch gate offset found.1.count found.2 (events_seen found.0.items)) }
    ensures events { IfOk result (λ found. Tells (D.disk disk.old) (λ d. BatchIn (form_of form) gate d.shows found.1 (events_seen found.0.items))) }
    ensures rests { Rests (D.disk disk.old) (D.disk disk.new) }
    ensures cause { ReadCause result (D.disk disk.old) (D.disk disk.new) }
{
    let first = match read_first(alloc, disk, gate, offset) {
        Ok(first) => first,
        Err(fail) => return Err(fail),
    };
    let Some((count, ahead)) = head_of(&first) else {
        disk.disown();
        return Err(ReadFail::DiskFault);
    };
    let next = next_gate(form, offset, count);
    if next <= offset || gate < next {
        disk.disown();
        return Err(ReadFail::DiskFault);
    }
    let spot = Spot { offset, count };
    match read_rest(alloc, disk, spot, ahead) {
        Ok(events) => Ok((events, spot, next)),
        Err(fail) => Err(fail),
    }
}
