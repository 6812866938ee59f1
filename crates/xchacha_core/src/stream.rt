// HChaCha20, and a text xored with XChaCha20's key stream.

ghost use Rattle.std.specs.Prelude.{◌≡◌, ℕ, ◌+◌, ◌*◌, ◌^◌, ◌≤◌, ◌<◌, [], ◌∷◌, length, take};
ghost use Rattle.xchacha_core.specs.ChaCha.{state_of, word_at};
ghost use Rattle.xchacha_core.specs.Rows.{HasWidth, block_state, byte_of_blocks};
ghost use Rattle.xchacha_core.specs.Stream.{hchacha20_of, xchacha20, xored};

use crate::four_blocks::xor_four_blocks;
use crate::one_block::{ten_double_rounds, xor_block};
use crate::rows::{Rows, row_at, write_row};
use crate::two_blocks::xor_two_blocks;
use std::simd::u32x4;

/// The rows of the state with this key and last row (RFC 8439, 2.3).
#[inline(always)]
pub fn rows_of(key: &[u8; 32], last_row: [u32; 4]) -> Rows
    ensures wide { HasWidth 4 result }
    ensures state { block_state result 0 ≡ state_of key.now last_row }
{
    let [first, second, third, fourth] = last_row;
    (
        u32x4::from_array([0x6170_7865, 0x3320_646e, 0x7962_2d32, 0x6b20_6574]),
        row_at(key, 0),
        row_at(key, 4),
        u32x4::from_array([first, second, third, fourth]),
    )
}

/// HChaCha20 (draft-irtf-cfrg-xchacha-03, 2.2): 32 bytes, of use as a key, from a key of 32 bytes and a
/// nonce of 16. It takes no memory and has no refusal.
pub fn hchacha20(key: &[u8; 32], nonce: &[u8; 16]) -> [u8; 32]
    ensures { result ≡ hchacha20_of key.now nonce.now }
{
    let (first, _, _, last) = ten_double_rounds(rows_of(key, row_at(nonce, 0).to_array()));
    let mut bytes = [0; 32];
    write_row(first, &mut bytes[..16]);
    write_row(last, &mut bytes[16..]);
    bytes
}

/// The rows of block 0: the blocks' states differ in the counter alone, the last row's first word.
#[inline(always)]
fn first_rows(key: &[u8; 32], nonce: &[u8; 24]) -> Rows
    ensures wide { HasWidth 4 result }
    ensures state { block_state result 0 ≡ state_of (hchacha20_of key.now (take 16 nonce.now)) (0 ∷ 0
        ∷ word_at nonce.now 4 ∷ word_at nonce.now 5 ∷ []) }
{
    let mut first_part = [0; 16];
    first_part.copy_from_slice(&nonce[..16]);
    let [_, _, third, fourth] = row_at(nonce, 2).to_array();
    rows_of(&hchacha20(key, &first_part), [0, 0, third, fourth])
}

/// Xors the first `len` bytes of `whole`, and maybe others, with the blocks from this counter on: as
/// many at once as they need.
#[inline(always)]
fn xor_first(start: &Rows, counter: u32, whole: &mut [u8; 256], len: usize)
    requires wide { HasWidth 4 start.now }
    requires counters { counter + 4 ≤ 2 ^ 32 }
    requires length { len ≤ 256 }
    ensures { take len whole.new ≡ xored (byte_of_blocks (block_state start.now 0) counter) 0 (take len whole.old) }
{
    if len > 128 {
        xor_four_blocks(start, counter, whole);
    } else if len > 64 {
        xor_two_blocks(start, counter, &mut whole[..128]);
    } else {
        xor_block(start, counter, &mut whole[..64]);
    }
}

/// Xors a text of at most 256 bytes in a copy that has whole blocks.
#[inline(always)]
fn xor_in_copy(start: &Rows, counter: u32, text: &mut [u8])
    requires wide { HasWidth 4 start.now }
    requires counters { counter + 4 ≤ 2 ^ 32 }
    requires length { length text.old ≤ 256 }
    ensures { text.new ≡ xored (byte_of_blocks (block_state start.now 0) counter) 0 text.old }
{
    let mut whole = [0; 256];
    let len = text.len();
    whole[..len].copy_from_slice(text);
    xor_first(start, counter, &mut whole, len);
    text.copy_from_slice(&whole[..len]);
}

/// Xors the rest of a text, which is shorter than four blocks: one or two whole blocks where they lie.
#[inline(always)]
fn xor_rest(start: &Rows, counter: u32, rest: &mut [u8])
    requires wide { HasWidth 4 start.now }
    requires counters { counter + 4 ≤ 2 ^ 32 }
    requires length { length rest.old < 256 }
    ensures { rest.new ≡ xored (byte_of_blocks (block_state start.now 0) counter) 0 rest.old }
{
    let len = rest.len();
    if len == 64 {
        xor_block(start, counter, rest);
    } else if len == 128 {
        xor_two_blocks(start, counter, rest);
    } else if len > 0 {
        xor_in_copy(start, counter, rest);
    }
}

/// XChaCha20 (draft-irtf-cfrg-xchacha-03, 2.3), in place: byte i of `buf` is xored with byte i of the key
/// stream of this key of 32 bytes and nonce of 24. `buf` is below 2^32 bytes; its length stays. A
/// second call with the same key and nonce gives back what was there. It takes no memory and has no
/// refusal.
pub fn xchacha20_xor(key: &[u8; 32], nonce: &[u8; 24], buf: &mut [u8])
    requires { length buf.old < 2 ^ 32 }
    ensures text { buf.new ≡ xchacha20 key.now nonce.now buf.old }
    ensures twice { xchacha20 key.now nonce.now buf.new ≡ buf.old }
{
    let start = first_rows(key, nonce);
    let fours = buf.len() / 256;
    'pieces: for i in 0..fours {
        xor_four_blocks(&start, 4 * i as u32, &mut buf[256 * i..256 * i + 256]);
    }
    xor_rest(&start, 4 * fours as u32, &mut buf[256 * fours..]);
}
