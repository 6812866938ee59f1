//! Sealing a payload.

ghost use Rattle.std.specs.Prelude.{◌≡◌, ◌<◌, ◌≤◌, ◌+◌, ◌^◌, length, take, drop, IfOk};
ghost use Rattle.record_seal.specs.Seals.{seal_of};
ghost use Rattle.record_seal.specs.Seen.{head_seen, seal_seen};

use crate::asserted::assertion;
use crate::heads::{Head, Sealed};
use crate::keys::write_key_text;
use crate::messages::write_message;
use paseto_seal::lock_token;
use plain_types::NoMemory;
use std::alloc::Global;

/// The 32 bytes of `drawn` that begin at a place.
fn drawn_at(drawn: &[u8; 96], at: usize) -> [u8; 32]
    requires { at + 32 ≤ 96 }
    ensures { result ≡ take 32 (drop at drawn.now) }
{
    let mut bytes = [0u8; 32];
    bytes.copy_from_slice(&drawn[at..at + 32]);
    bytes
}

/// The seal of a payload under `key`, bound to `head`. `payload` is below 2^30 bytes. `drawn` are 96 random bytes, which
/// serve one seal and no second one: the content key, the token's nonce and the wrap's nonce, in this order.
///
/// # Errors
///
/// [`NoMemory`].
pub fn seal(
    alloc: Global,
    key: &[u8; 32],
    head: &Head,
    payload: &[u8],
    drawn: &[u8; 96],
) -> Result<Sealed, NoMemory>
    requires { length payload.now < 2 ^ 30 }
    ensures { IfOk result (λ made. seal_seen made ≡ seal_of key.now (head_seen head.now) payload.now drawn.now) }
{
    let content_key = drawn_at(drawn, 0);
    let token_nonce = drawn_at(drawn, 32);
    let wrap_nonce = drawn_at(drawn, 64);
    let message = write_message(alloc, payload)?;
    let bound = assertion(
        alloc,
        head.id,
        head.idx,
        &head.version,
        &head.tag,
        head.host,
    )?;
    let sealed = lock_token(
        alloc,
        &content_key,
        &token_nonce,
        message.as_bytes(),
        &bound,
    )?;
    let wrapped = write_key_text(alloc, key, &wrap_nonce, &content_key)?;
    Ok(Sealed { sealed, wrapped })
}
