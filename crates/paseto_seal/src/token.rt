// PASETO v4.local tokens.

ghost use Rattle.std.specs.Prelude.{◌≡◌, ◌<◌, ◌≤◌, ◌-◌, ◌^◌, ◌++◌, length, take, drop, IfOk};
ghost use Rattle.paseto_seal.specs.Token.{token_cipher, token_tag, token_body, token};
ghost use Rattle.paseto_seal.specs.Opening.{OpensToken};

use crate::carried::{carried, carry};
use crate::cipher::apply_cipher;
use crate::fail::TokenFail;
use crate::hash::hash_encoded;
use crate::sizes::{NONCE_BYTES, TAG_BYTES};
use crate::tag::same_tag;
use blake2b_core::hash_pieces;
use plain_types::{Bytes, NoMemory, Text};
use std::alloc::Global;

const TOKEN_HEADER: &str = "v4.local.";

/// Xors a text with the key stream of a token: a message becomes its ciphertext, a ciphertext its message.
fn apply_token_cipher(key: &[u8; 32], nonce: &[u8; 32], text: &mut [u8])
    requires { length text.old < 2 ^ 32 }
    ensures { text.new ≡ token_cipher key.now nonce.now text.old }
{
    let mut secrets = [0u8; 56];
    hash_pieces(key, &[b"paseto-encryption-key", nonce], &mut secrets);
    apply_cipher(&secrets, text);
}

/// Enciphers what stands behind a nonce.
fn encipher_behind_nonce(key: &[u8; 32], nonce: &[u8; 32], body: &mut [u8])
    requires long { 32 ≤ length body.old }
    requires short { length body.old < 2 ^ 32 }
    ensures front { take 32 body.new ≡ take 32 body.old }
    ensures cipher { drop 32 body.new ≡ token_cipher key.now nonce.now (drop 32 body.old) }
{
    apply_token_cipher(key, nonce, &mut body[NONCE_BYTES..]);
}

/// The tag of a token.
fn token_tag(key: &[u8; 32], nonce: &[u8], cipher: &[u8], implicit: &[u8]) -> [u8; 32]
    ensures { result ≡ token_tag key.now nonce.now cipher.now implicit.now }
{
    let mut auth_key = [0u8; 32];
    hash_pieces(key, &[b"paseto-auth-key-for-aead", nonce], &mut auth_key);
    let mut tag = [0u8; 32];
    hash_encoded(
        &auth_key,
        &[TOKEN_HEADER.as_bytes(), nonce, cipher, b"", implicit],
        &mut tag,
    );
    tag
}

/// The bytes of a token behind its header.
fn token_body(
    alloc: Global,
    key: &[u8; 32],
    nonce: &[u8; 32],
    message: &[u8],
    implicit: &[u8],
) -> Result<Vec<u8>, NoMemory>
    requires { length message.now < 2 ^ 31 }
    ensures { IfOk result (λ body. body.items ≡ token_body key.now nonce.now message.now implicit.now) }
{
    let mut body = Vec::with_capacity(alloc, NONCE_BYTES + message.len() + TAG_BYTES)?;
    body.extend_from_slice(nonce)?;
    body.extend_from_slice(message)?;
    encipher_behind_nonce(key, nonce, &mut body);
    let tag = token_tag(key, nonce, &body[NONCE_BYTES..], implicit);
    body.extend_from_slice(&tag)?;
    Ok(body)
}

/// A nonce, a ciphertext and a tag, as they stand behind a token's header.
fn parts(body: &[u8]) -> (&[u8], &[u8], &[u8])
    requires { 64 ≤ length body.now }
    ensures whole { body.now ≡ result.0.now ++ (result.1.now ++ result.2.now) }
    ensures nonce { length result.0.now ≡ 32 }
    ensures tag { length result.2.now ≡ 32 }
{
    let (nonce, rest) = body.split_at(NONCE_BYTES);
    let (cipher, tag) = rest.split_at(rest.len() - TAG_BYTES);
    (nonce, cipher, tag)
}

/// Leaves of the bytes behind a token's header the ciphertext alone.
fn keep_cipher(body: &mut Vec<u8>)
    requires { 64 ≤ length body.old.items }
    ensures { body.new.items ≡ take (length body.old.items - 64) (drop 32 body.old.items) }
{
    let end = body.len() - TAG_BYTES;
    body.copy_within(NONCE_BYTES..end, 0);
    body.truncate(end - NONCE_BYTES);
}

/// The message in the bytes behind a token's header, deciphered where it stands.
fn deciphered(key: &[u8; 32], mut body: Vec<u8>) -> Vec<u8>
    requires long { 64 ≤ length body.items }
    requires short { length body.items < 2 ^ 32 }
    ensures { result.items ≡ token_cipher key.now (take 32 body.items) (take (length body.items - 64) (drop 32 body.items)) }
{
    let mut nonce = [0u8; NONCE_BYTES];
    let (front, _) = body.as_slice().split_at(NONCE_BYTES);
    nonce.copy_from_slice(front);
    keep_cipher(&mut body);
    apply_token_cipher(key, &nonce, &mut body);
    body
}

/// The token of `message` under `key`, with `nonce` and the implicit assertion `implicit` (PASETO, Version 4, "Encrypt",
/// with an empty footer): `v4.local.` and then base64url of the nonce, the ciphertext and the tag. A nonce serves one
/// token of a key and no second one, which is the caller's to see to. `message` is below 2^31 bytes, so that the text is
/// below 2^32; `implicit` is of any length.
///
/// # Errors
///
/// [`NoMemory`].
#[tactic(auto, unfolding(crate::specs::Token::token))]
pub fn lock_token(
    alloc: Global,
    key: &[u8; 32],
    nonce: &[u8; 32],
    message: &[u8],
    implicit: &[u8],
) -> Result<Text, NoMemory>
    requires { length message.now < 2 ^ 31 }
    ensures { IfOk result (λ text. text ≡ token key.now nonce.now message.now implicit.now) }
{
    let body = token_body(alloc, key, nonce, message, implicit)?;
    carry(alloc, TOKEN_HEADER, body.as_slice())
}

/// The message whose token under `key` and the implicit assertion `implicit` this is (PASETO, Version 4, "Decrypt",
/// with an empty footer). `token` is below 2^32 bytes; `implicit` is of any length. At most one message has the token.
///
/// The code compares the tag whole, and deciphers nothing before it is found equal; no clause says so.
///
/// # Errors
///
/// - [`TokenFail::NotToken`] exactly where the text isn't `v4.local.` and then the unpadded base64url, with zeros for
///   its spare bits, of at least 64 bytes. A text with a footer is none.
/// - [`TokenFail::BadTag`] exactly where it is, and no message has it as its token under this key and assertion.
/// - [`TokenFail::NoMemory`], in place of any other answer.
pub fn open_token(
    alloc: Global,
    key: &[u8; 32],
    token: &[u8],
    implicit: &[u8],
) -> Result<Bytes, TokenFail>
    requires { length token.now < 2 ^ 32 }
    ensures { OpensToken key.now token.now implicit.now result }
{
    let body = carried(alloc, TOKEN_HEADER, token)?;
    if body.len() < NONCE_BYTES + TAG_BYTES {
        return Err(TokenFail::NotToken);
    }
    let (nonce, cipher, tag) = parts(body.as_slice());
    let expected = token_tag(key, nonce, cipher, implicit);
    if !same_tag(&expected, tag) {
        return Err(TokenFail::BadTag);
    }
    Ok(Bytes::from_vec(deciphered(key, body)))
}
