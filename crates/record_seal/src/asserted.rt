//! What a record says in the open, as the assertion of its token.

ghost use Rattle.std.specs.Prelude.{◌≡◌, IfOk};
ghost use Rattle.record_seal.specs.Assertion.{assertion, printed_id};

use json::Writer;
use plain_types::{NoMemory, Text};
use std::alloc::Global;
use uuid::Uuid;

/// The assertion beside its idx, version and tag, and an idx of 20 digits, in bytes.
const MOST_FIXED_BYTES: usize = 140;

/// An id, in lower-case digits with hyphens.
fn printed_id(id: u128, buffer: &mut [u8; 45]) -> &str
    ensures { result.now ≡ printed_id id }
{
    Uuid::from_u128(id).hyphenated().encode_lower(buffer)
}

/// The text as a `str`.
fn text_str(text: &Text) -> &str
    ensures { result.now ≡ text.now }
{
    match str::from_utf8(text.as_bytes()) {
        Ok(text) => text,
        Err(_) => unreachable!(),
    }
}

/// The assertion of a record that says this in the open.
#[tactic(auto, unfolding(crate::specs::Assertion::assertion))]
pub fn assertion(
    alloc: Global,
    id: u128,
    idx: u64,
    version: &Text,
    tag: &Text,
    host: u128,
) -> Result<Vec<u8>, NoMemory>
    ensures { IfOk result (λ text. text.items
        ≡ assertion (record { id = id; idx = idx; version = version.now; tag = tag.now; host = host })) }
{
    let mut id_buffer = Uuid::encode_buffer();
    let mut host_buffer = Uuid::encode_buffer();
    let room = MOST_FIXED_BYTES + version.len() + tag.len();
    let mut writer = Writer::new(Vec::with_capacity(alloc, room)?);
    writer.begin_object()?;
    writer.key("id")?;
    writer.string(printed_id(id, &mut id_buffer))?;
    writer.key("idx")?;
    writer.u64(idx)?;
    writer.key("version")?;
    writer.string(text_str(version))?;
    writer.key("tag")?;
    writer.string(text_str(tag))?;
    writer.key("host")?;
    writer.string(printed_id(host, &mut host_buffer))?;
    writer.end_object()?;
    Ok(writer.into_inner())
}
