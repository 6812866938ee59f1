// PASERK k4.local-wrap.pie wraps.

ghost use Rattle.std.specs.Prelude.{◌≡◌, ◌++◌, length, IfOk};
ghost use Rattle.paseto_seal.specs.Wrap.{wrap_cipher, wrap_tag, wrap_body, wrap};
ghost use Rattle.paseto_seal.specs.Opening.{UnwrapsKey};

use crate::carried::{carried, carry};
use crate::cipher::apply_cipher;
use crate::fail::WrapFail;
use crate::sizes::{KEY_BYTES, NONCE_BYTES, TAG_BYTES};
use crate::tag::same_tag;
use blake2b_core::hash_pieces;
use plain_types::{NoMemory, Text};
use std::alloc::Global;

const WRAP_HEADER: &str = "k4.local-wrap.pie.";

const BODY_BYTES: usize = TAG_BYTES + NONCE_BYTES + KEY_BYTES;

// The header, and four characters for every three bytes behind it.
const WRAP_CHARACTERS: usize = 18 + BODY_BYTES / 3 * 4;

/// Xors a key with the key stream of a wrap, which turns a key into its ciphertext and back.
fn apply_wrap_cipher(by: &[u8; 32], nonce: &[u8], key: &mut [u8; 32])
    ensures { key.new ≡ wrap_cipher by.now nonce.now key.old }
{
    let mut secrets = [0u8; 56];
    hash_pieces(by, &[&[0x80], nonce], &mut secrets);
    apply_cipher(&secrets, key);
}

/// The tag of a wrap.
fn wrap_tag(by: &[u8; 32], nonce: &[u8], cipher: &[u8]) -> [u8; 32]
    ensures { result ≡ wrap_tag by.now nonce.now cipher.now }
{
    let mut auth_key = [0u8; 32];
    hash_pieces(by, &[&[0x81], nonce], &mut auth_key);
    let mut tag = [0u8; 32];
    hash_pieces(
        &auth_key,
        &[WRAP_HEADER.as_bytes(), nonce, cipher],
        &mut tag,
    );
    tag
}

/// The bytes of a wrap behind its header.
fn wrap_body(
    alloc: Global,
    by: &[u8; 32],
    nonce: &[u8; 32],
    key: &[u8; 32],
) -> Result<Vec<u8>, NoMemory>
    ensures { IfOk result (λ body. body.items ≡ wrap_body by.now nonce.now key.now) }
{
    let mut cipher = *key;
    apply_wrap_cipher(by, nonce, &mut cipher);
    let tag = wrap_tag(by, nonce, &cipher);
    let mut body = Vec::with_capacity(alloc, BODY_BYTES)?;
    body.extend_from_slice(&tag)?;
    body.extend_from_slice(nonce)?;
    body.extend_from_slice(&cipher)?;
    Ok(body)
}

/// A tag, a nonce and a ciphertext, as they stand behind a wrap's header.
fn parts(body: &[u8]) -> (&[u8], &[u8], &[u8])
    requires { length body.now ≡ 96 }
    ensures whole { body.now ≡ result.0.now ++ (result.1.now ++ result.2.now) }
    ensures tag { length result.0.now ≡ 32 }
    ensures nonce { length result.1.now ≡ 32 }
    ensures cipher { length result.2.now ≡ 32 }
{
    let (tag, rest) = body.split_at(TAG_BYTES);
    let (nonce, cipher) = rest.split_at(NONCE_BYTES);
    (tag, nonce, cipher)
}

/// The wrap of `key` under the key `by`, with `nonce` (PASERK, local-wrap with the prefix pie): `k4.local-wrap.pie.` and
/// then base64url of the tag, the nonce and the ciphertext, 146 bytes in all. A nonce serves one wrap under a key and no
/// second one, which is the caller's to see to.
///
/// # Errors
///
/// [`NoMemory`].
#[tactic(auto, unfolding(crate::specs::Wrap::wrap))]
pub fn wrap_key(
    alloc: Global,
    by: &[u8; 32],
    nonce: &[u8; 32],
    key: &[u8; 32],
) -> Result<Text, NoMemory>
    ensures { IfOk result (λ text. text ≡ wrap by.now nonce.now key.now) }
{
    let body = wrap_body(alloc, by, nonce, key)?;
    carry(alloc, WRAP_HEADER, body.as_slice())
}

/// The key whose wrap under the key `by` this is (PASERK, local-wrap with the prefix pie). `text` is of any length. At
/// most one key has the wrap.
///
/// The code looks at the text's length before it decodes anything, compares the tag whole, and deciphers nothing before
/// it is found equal; no clause says so.
///
/// # Errors
///
/// - [`WrapFail::NotWrapped`] exactly where the text isn't `k4.local-wrap.pie.` and then the unpadded base64url of 96
///   bytes.
/// - [`WrapFail::BadTag`] exactly where it is, and no key has it as its wrap under `by`.
/// - [`WrapFail::NoMemory`], in place of any other answer.
pub fn unwrap_key(alloc: Global, by: &[u8; 32], text: &[u8]) -> Result<[u8; 32], WrapFail>
    ensures { UnwrapsKey by.now text.now result }
{
    if text.len() != WRAP_CHARACTERS {
        return Err(WrapFail::NotWrapped);
    }
    let body = carried(alloc, WRAP_HEADER, text)?;
    let (tag, nonce, cipher) = parts(body.as_slice());
    let expected = wrap_tag(by, nonce, cipher);
    if !same_tag(&expected, tag) {
        return Err(WrapFail::BadTag);
    }
    let mut key = [0u8; 32];
    key.copy_from_slice(cipher);
    apply_wrap_cipher(by, nonce, &mut key);
    Ok(key)
}
