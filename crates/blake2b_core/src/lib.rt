//! BLAKE2b (RFC 7693): a hash of up to 64 bytes of a text, with a key or without one, where the text
//! comes in pieces of any length.
//!
//! A contract sees a hasher as a `Hashing`, of which a caller needs the output's length alone, and
//! says by `Holds` which key and text it has been given. However the text is cut into pieces, the
//! hash is the standard's `blake2b` of the pieces one after another; `hash_pieces` has it in one call.
//!
//! It takes no memory, and stands on std alone.
#![tactic(auto)]

ghost use Rattle.std.specs.Prelude.{◌≡◌, ℕ, ◌+◌, ◌*◌, ◌/◌, ◌%◌, ◌≤◌, List, [], ◌++◌, length, take, drop};
ghost use Rattle.std.specs.Int.{w64, to_le_bytes};
ghost use Rattle.std.specs.List.{flat_map};
ghost use Rattle.blake2b_core.specs.Hash.{blake2b, initial_state, padded};
ghost use Rattle.blake2b_core.specs.Hashing.{Holds, IsAfter};

use compression::{IV, compress};
use std::marker::Model;

mod compression;

const BLOCK_BYTES: usize = 128;

/// A hasher that has been given a key, an output length and the pieces of a text so far.
#[derive(Drop)]
pub struct Blake2b {
    state: [u64; 8],
    // How many bytes the state has taken in, modulo 2^128.
    count: u128,
    // What came after them: up to a whole block, since the last block is compressed otherwise than
    // the others, and only the next byte shows that this block isn't the last.
    buffer: [u8; 128],
    held: usize,
    out_len: u8,
}

impl Model for Blake2b {
    ghost use Rattle.std.specs.Prelude.{ℕ, ◌≤◌, take};
    ghost use Rattle.blake2b_core.specs.Hashing.{Hashing};

    ghost Value = { Hashing };

    ghost view = { λ b. record { out_len = b.out_len; state = b.state; count = b.count; held = take b.held b.buffer } };

    ghost invariant = { λ b. (b.held ≤ 128) × (b.out_len ≤ 64) };
}

impl Blake2b {
    /// A hasher of the empty text under `key`, which has at most 64 bytes and may be empty. The hash
    /// will have `out_len` bytes, from 1 to 64 (RFC 7693, section 3.3).
    pub fn new(key: &[u8], out_len: u8) -> Blake2b
        requires key { length key.now ≤ 64 }
        requires some { 1 ≤ out_len }
        requires most { out_len ≤ 64 }
        ensures length { result.out_len ≡ out_len }
        ensures empty { Holds result key.now [] }
    {
        Blake2b {
            state: initial_state(key.len(), out_len),
            count: 0,
            buffer: padded(key),
            held: if key.is_empty() { 0 } else { BLOCK_BYTES },
            out_len,
        }
    }

    /// Adds `piece` to the text. It may be empty or of any length: how a text is cut into pieces
    /// changes nothing.
    pub fn update(&mut self, piece: &[u8])
        ensures length { self.new.out_len ≡ self.old.out_len }
        ensures added { (key text : List ℕ) → Holds self.old key text → Holds self.new key (text ++ piece.now) }
    {
        let room = BLOCK_BYTES - self.held;
        if piece.len() <= room {
            let end = self.held + piece.len();
            self.buffer[self.held..end].copy_from_slice(piece);
            self.held = end;
            return;
        }
        let (head, rest) = piece.split_at(room);
        self.buffer[self.held..].copy_from_slice(head);
        let count = absorb(&mut self.state, self.count, &self.buffer);
        let (blocks, tail) = rest.split_at((rest.len() - 1) / BLOCK_BYTES * BLOCK_BYTES);
        self.count = absorb(&mut self.state, count, blocks);
        self.buffer[..tail.len()].copy_from_slice(tail);
        self.held = tail.len();
    }

    /// Writes the hash of the key and all pieces, one after another, into `out` (RFC 7693, section
    /// 3.3). It has the `out_len` bytes that `new` was given, and what it held before is gone.
    pub fn finish_into(self, out: &mut [u8])
        requires { length out.old ≡ self.out_len }
        ensures { (key text : List ℕ) → Holds self key text → out.new ≡ blake2b self.out_len key text }
    {
        let mut block = self.buffer;
        block[self.held..].fill(0);
        let count = self.count.wrapping_add(self.held as u128);
        let mut state = self.state;
        compress(&mut state, &block, count, true);
        let bytes = bytes_of(&state);
        out.copy_from_slice(&bytes[..usize::from(self.out_len)]);
    }
}

/// Writes into `out` the hash, of as many bytes as it has, of the pieces one after another under `key`
/// (RFC 7693, section 3.3). `out` has 1 to 64 bytes, and what it held before is gone; the key has at
/// most 64 and may be empty.
pub fn hash_pieces(key: &[u8], pieces: &[&[u8]], out: &mut [u8])
    requires key { length key.now ≤ 64 }
    requires some { 1 ≤ length out.old }
    requires most { length out.old ≤ 64 }
    ensures { out.new ≡ blake2b (length out.old) key.now (flat_map (λ piece. piece.now) pieces.now) }
{
    let mut hasher = Blake2b::new(key, out.len() as u8);
    for piece in pieces {
        hasher.update(piece);
    }
    hasher.finish_into(out);
}

// The state before the first block.
fn initial_state(key_len: usize, out_len: u8) -> [u64; 8]
    requires { key_len ≤ 64 }
    ensures { result ≡ initial_state out_len key_len }
{
    let mut state = IV;
    state[0] = IV[0] ^ 0x0101_0000 ^ ((key_len as u64) << 8) ^ u64::from(out_len);
    state
}

// A block of these bytes and zeros.
fn padded(bytes: &[u8]) -> [u8; 128]
    requires { length bytes.now ≤ 128 }
    ensures { result ≡ padded bytes.now }
{
    let mut block = [0u8; BLOCK_BYTES];
    block[..bytes.len()].copy_from_slice(bytes);
    block
}

// Takes in whole blocks, none of which is the last, and gives the new count.
fn absorb(state: &mut [u64; 8], mut count: u128, blocks: &[u8]) -> u128
    requires { length blocks.now % 128 ≡ 0 }
    ensures { (start input : List ℕ) (n : ℕ) → IsAfter start input n state.old count
        → take (length blocks.now) (drop (128 * n) input) ≡ blocks.now
        → IsAfter start input (n + length blocks.now / 128) state.new result }
{
    'whole: for i in 0..blocks.len() / BLOCK_BYTES {
        count = count.wrapping_add(BLOCK_BYTES as u128);
        let at = BLOCK_BYTES * i;
        compress(state, &blocks[at..at + BLOCK_BYTES], count, false);
    }
    count
}

// The words of a state, each low byte first.
fn bytes_of(state: &[u64; 8]) -> [u8; 64]
    ensures { result ≡ flat_map (to_le_bytes w64) state.now }
{
    let mut bytes = [0u8; 64];
    'words: for i in 0..8 {
        let word = state[i];
        bytes[8 * i..8 * i + 8].copy_from_slice(&word.to_le_bytes());
    }
    bytes
}

#[cfg(test)]
mod tests;
