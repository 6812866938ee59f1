//! What the record of a payload will weigh.

ghost use Rattle.std.specs.Prelude.{◌≡◌, ◌≤◌, ◌+◌, ℕ, List, [], length};
ghost use Rattle.payload_rules.specs.Payloads.{written_payload};
ghost use Rattle.step_rules.specs.Sealing.{keyed_store};
ghost use Rattle.record_seal.proofs.StoreSealing.{record_sealing};
ghost use Rattle.record_seal.specs.Seen.{head_seen};
ghost use Rattle.payload_forms.specs.Seen.{payload_seen};
ghost use Rattle.payload_records.specs.Heads.{most_written_bytes};

use crate::kinds::{tag_of, version_of};
use payload_forms::{Payload, payload_len};
use plain_types::Text;
use record_seal::{Head, sealed_weight};
use std::alloc::Global;

/// A head without version and tag. It takes no memory.
fn bare_head(alloc: Global) -> Head
    ensures version { result.version ≡ [] }
    ensures tag { result.tag ≡ [] }
{
    Head {
        id: 0,
        idx: 0,
        version: Text::new(alloc),
        tag: Text::new(alloc),
        host: 0,
    }
}

/// What a record of the payload will weigh, in bytes, whatever the host, the key, its stamp and the random bytes. At most
/// 1,048,582 bytes are written for the payload. It takes no memory.
pub fn weight(alloc: Global, payload: &Payload) -> u64
    requires { length (written_payload (payload_seen payload.now)) ≤ most_written_bytes }
    ensures { (host : ℕ) (key : List ℕ) → result ≡ (keyed_store record_sealing host key).weight_of (payload_seen payload.now) }
{
    let texts = version_of(payload).len() + tag_of(payload).len();
    sealed_weight(&bare_head(alloc), payload_len(payload)) + texts as u64
}
