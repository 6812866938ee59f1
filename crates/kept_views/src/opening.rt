//! What a record shows under a key.

ghost use Rattle.std.specs.Prelude.{◌≡◌, IfOk};
ghost use Rattle.std.specs.Option.{option_map};
ghost use Rattle.definitions.specs.Spelling.{IsBytes};
ghost use Rattle.payload_rules.specs.Reading.{payload_at};
ghost use Rattle.record_model.specs.Seen.{record_seen};
ghost use Rattle.record_seal.specs.Computing.{opened_payload};
ghost use Rattle.payload_forms.specs.Seen.{payload_seen};
ghost use Rattle.kept_views.specs.Shown.{payload_under};

use payload_forms::{Payload, PayloadFail, read_payload};
use plain_types::{Bytes, NoMemory};
use record_model::Record;
use record_seal::{SealFail, unseal};
use std::alloc::Global;

/// The bytes that the record opens to under the key, or none.
fn opened(alloc: Global, key: &[u8; 32], rec: &Record) -> Result<Option<Bytes>, NoMemory>
    ensures { IfOk result (λ found. option_map (λ bytes. bytes.items) found ≡ opened_payload key.now (record_seen rec.now)) }
{
    match unseal(alloc, key, rec) {
        Ok(bytes) => Ok(Some(bytes)),
        Err(SealFail::WrongKey { .. }) => Ok(None),
        Err(SealFail::BadSeal) => Ok(None),
        Err(SealFail::NoMemory) => Err(NoMemory),
    }
}

/// The payload that the bytes spell under the tag and the version, or none.
fn read(
    alloc: Global,
    tag: &[u8],
    version: &[u8],
    bytes: &[u8],
) -> Result<Option<Payload>, NoMemory>
    ensures { IfOk result (λ found. IsBytes bytes.now → option_map payload_seen found ≡ payload_at tag.now version.now bytes.now) }
{
    match read_payload(alloc, tag, version, bytes) {
        Ok(payload) => Ok(Some(payload)),
        Err(PayloadFail::Unread) => Ok(None),
        Err(PayloadFail::NoMemory) => Err(NoMemory),
    }
}

/// The payload that the record holds under the key, or none.
fn shown_by(alloc: Global, key: &[u8; 32], rec: &Record) -> Result<Option<Payload>, NoMemory>
    ensures { IfOk result (λ found. option_map payload_seen found ≡ payload_under (Some key.now) (record_seen rec.now)) }
{
    match opened(alloc, key, rec)? {
        Some(bytes) => read(
            alloc,
            rec.tag.as_bytes(),
            rec.version.as_bytes(),
            bytes.as_slice(),
        ),
        None => Ok(None),
    }
}

/// The payload that the record holds under the key, if there is a key.
pub fn shown(
    alloc: Global,
    key: &Option<[u8; 32]>,
    rec: &Record,
) -> Result<Option<Payload>, NoMemory>
    ensures { IfOk result (λ found. option_map payload_seen found ≡ payload_under key.now (record_seen rec.now)) }
{
    match key {
        Some(key) => shown_by(alloc, key, rec),
        None => Ok(None),
    }
}
