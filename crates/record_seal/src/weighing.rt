//! What a record will weigh.

ghost use Rattle.std.specs.Prelude.{◌≡◌, ◌+◌, ◌≤◌, ℕ, List, length};
ghost use Rattle.definitions.specs.Limits.{fixed_weight};
ghost use Rattle.record_rules.specs.Records.{record_weight};
ghost use Rattle.step_rules.specs.Store.{sealed_record};
ghost use Rattle.record_seal.specs.SealLengths.{sealed_text_length, key_text_length};
ghost use Rattle.record_seal.specs.Seals.{seal_of};
ghost use Rattle.record_seal.specs.Seen.{head_seen};

use crate::heads::Head;
use crate::keys::KEY_TEXT_BYTES;
use crate::messages::MESSAGE_FRAME_BYTES;
use paseto_seal::base64url_len;

/// What a record weighs beside its texts, in bytes.
const FIXED_WEIGHT: usize = 128;

/// The header of a token, and what a token has beside its message: a nonce and a tag.
const TOKEN_HEADER_BYTES: usize = 9;

const TOKEN_FRAME_BYTES: usize = 64;

/// What the record of a payload will weigh, in bytes: `payload_len`, the payload's bytes, and the head decide it, whatever
/// the key, the random bytes and the time. `payload_len` is at most 1,048,582. It takes no memory.
pub fn sealed_weight(head: &Head, payload_len: u64) -> u64
    requires { payload_len ≤ 1048582 }
    ensures weight { (key payload random : List ℕ) (now : ℕ) → length payload ≡ payload_len → length random ≡ 96
        → result ≡ record_weight (sealed_record (head_seen head.now) now
        (seal_of key (head_seen head.now) payload random)) }
    ensures lengths { result ≡ fixed_weight + length head.now.version + length head.now.tag
        + sealed_text_length payload_len + key_text_length }
{
    let message = base64url_len(payload_len as usize) + MESSAGE_FRAME_BYTES;
    let token = TOKEN_HEADER_BYTES + base64url_len(TOKEN_FRAME_BYTES + message);
    let texts = head.version.len() + head.tag.len() + token + KEY_TEXT_BYTES;
    (FIXED_WEIGHT + texts) as u64
}
