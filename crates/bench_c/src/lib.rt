//! C exports of the hash, the cipher, the comparison of tags, the seals and the payloads, for measuring alone: nothing
//! stands on this crate.
//!
//! The model and the promise are those of `blake2b_core`, `xchacha_core`, `paseto_seal`, `record_seal` and
//! `payload_forms`, on which it stands: where the lengths are in range an export leaves in its output what the crate's own call gives, and otherwise it
//! leaves the output as it was. A slice comes from C as a pointer and a length. What wants memory takes it from the C
//! library's `malloc`; its parameter `alloc` is no parameter in C.
#![tactic(auto)]

ghost use Rattle.std.specs.Prelude.{◌≡◌, ◌≢◌, ◌↔◌, ◌<◌, ◌≤◌, ◌^◌, length};
ghost use Rattle.blake2b_core.specs.Hash.{blake2b};
ghost use Rattle.xchacha_core.specs.Stream.{xchacha20};

use blake2b_core::Blake2b;
use paseto_seal::same_tag;
use xchacha_core::xchacha20_xor;

mod payloads;
mod sealing;

/// The hash of `text` under `key` fills `out` (RFC 7693). `out` has 1 to 64 bytes and the key at most
/// 64, none for a hash without a key; otherwise `out` stays as it was.
#[unsafe(no_mangle)]
pub extern "C" fn bench_blake2b(out: &mut [u8], key: &[u8], text: &[u8])
    ensures hash { 1 ≤ length out.old → length out.old ≤ 64 → length key.now ≤ 64
        → out.new ≡ blake2b (length out.old) key.now text.now }
    ensures long { 64 < length out.old → out.new ≡ out.old }
    ensures key { 64 < length key.now → out.new ≡ out.old }
{
    if out.is_empty() || out.len() > 64 || key.len() > 64 {
        return;
    }
    let mut hasher = Blake2b::new(key, out.len() as u8);
    hasher.update(text);
    hasher.finish_into(out);
}

/// XChaCha20 of `buf`, in place (draft-irtf-cfrg-xchacha-03). The key has 32 bytes, the nonce 24 and `buf`
/// less than 2^32; otherwise `buf` stays as it was.
#[unsafe(no_mangle)]
pub extern "C" fn bench_xchacha20_xor(key: &[u8], nonce: &[u8], buf: &mut [u8])
    ensures text { length key.now ≡ 32 → length nonce.now ≡ 24 → length buf.old < 2 ^ 32
        → buf.new ≡ xchacha20 key.now nonce.now buf.old }
    ensures key { length key.now ≢ 32 → buf.new ≡ buf.old }
    ensures nonce { length nonce.now ≢ 24 → buf.new ≡ buf.old }
    ensures long { 2 ^ 32 ≤ length buf.old → buf.new ≡ buf.old }
{
    if key.len() != 32 || nonce.len() != 24 || buf.len() >= 1 << 32 {
        return;
    }
    let mut whole_key = [0; 32];
    whole_key.copy_from_slice(key);
    let mut whole_nonce = [0; 24];
    whole_nonce.copy_from_slice(nonce);
    xchacha20_xor(&whole_key, &whole_nonce, buf);
}

/// 1 where two tags of one length are equal, else 0. What it does depends on their length alone.
#[unsafe(no_mangle)]
pub extern "C" fn bench_same_tag(expected: &[u8], found: &[u8]) -> u64
    ensures { (result ≡ 1) ↔ (expected.now ≡ found.now) }
{
    if expected.len() != found.len() {
        return 0;
    }
    u64::from(same_tag(expected, found))
}
