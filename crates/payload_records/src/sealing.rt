//! Sealing a payload as a record.

ghost use Rattle.std.specs.Prelude.{◌≡◌, ◌≤◌, length, Some, IfOk};
ghost use Rattle.payload_rules.specs.Payloads.{written_payload};
ghost use Rattle.record_rules.specs.Journal.{RecordFits};
ghost use Rattle.record_model.specs.Seen.{record_seen};
ghost use Rattle.step_rules.specs.Store.{sealed_record};
ghost use Rattle.step_rules.specs.Sealing.{keyed_store};
ghost use Rattle.record_seal.proofs.StoreSealing.{record_sealing};
ghost use Rattle.record_seal.specs.Seen.{head_seen, seal_seen};
ghost use Rattle.payload_forms.specs.Seen.{payload_seen};
ghost use Rattle.payload_records.specs.Heads.{most_written_bytes, head_for, record_for};

use crate::fitting::{bytes_fit, payload_fits};
use crate::kinds::{tag_of, version_of};
use payload_forms::{Payload, write_payload};
use plain_types::{NoMemory, Text};
use record_model::Record;
use record_seal::{Head, Sealed, seal};
use std::alloc::Global;

/// What a new record says beside what its payload decides.
#[derive(Clone, Copy, Debug, PartialEq, Eq)]
pub struct Stamp {
    /// The record's own id.
    pub id: u128,
    /// Its index in the chain of its host and tag, from 0.
    pub idx: u64,
    /// The id of the host that makes it.
    pub host: u128,
    /// When it is made, in nanoseconds since 1970 began, in UTC.
    pub timestamp: u64,
}

/// What the record of the payload says in the open.
fn head_of(alloc: Global, stamp: Stamp, payload: &Payload) -> Result<Head, NoMemory>
    ensures { IfOk result (λ head. head_seen head ≡ head_for stamp (payload_seen payload.now)) }
{
    Ok(Head {
        id: stamp.id,
        idx: stamp.idx,
        version: Text::copied(alloc, version_of(payload))?,
        tag: Text::copied(alloc, tag_of(payload))?,
        host: stamp.host,
    })
}

/// The record of this head, time and seal. The name of its host is empty. It takes no memory.
fn record_of(alloc: Global, head: Head, timestamp: u64, seal: Sealed) -> Record
    ensures { record_seen result ≡ sealed_record (head_seen head) timestamp (seal_seen seal) }
{
    Record {
        id: head.id,
        idx: head.idx,
        host: head.host,
        host_name: Text::new(alloc),
        timestamp,
        version: head.version,
        tag: head.tag,
        sealed: seal.sealed,
        wrapped: seal.wrapped,
    }
}

/// The record of the payload with this stamp, sealed under `key`. At most 1,048,582 bytes are written for the payload.
/// `drawn` are 96 random bytes, which serve one seal and no second one.
///
/// # Errors
///
/// [`NoMemory`].
pub fn seal_payload(
    alloc: Global,
    key: &[u8; 32],
    stamp: Stamp,
    payload: &Payload,
    drawn: &[u8; 96],
) -> Result<Record, NoMemory>
    requires { length (written_payload (payload_seen payload.now)) ≤ most_written_bytes }
    ensures made { IfOk result (λ r. record_seen r ≡ record_for key.now stamp (payload_seen payload.now) drawn.now) }
    ensures fits { IfOk result (λ r. RecordFits (record_seen r)) }
    ensures opens { IfOk result (λ r. (keyed_store record_sealing stamp.host key.now).opens (record_seen r) ≡ Some (payload_seen payload.now)) }
{
    payload_fits(payload);
    let head = head_of(alloc, stamp, payload)?;
    let bytes = write_payload(alloc, payload)?;
    let written = bytes.as_slice();
    bytes_fit(written);
    let sealed = seal(alloc, key, &head, written, drawn)?;
    Ok(record_of(alloc, head, stamp.timestamp, sealed))
}
