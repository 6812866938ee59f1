// A row of one block: four words in a vector, read from bytes, and xored into bytes.

ghost use Rattle.std.specs.Prelude.{◌≡◌, ℕ, ◌+◌, ◌*◌, ◌≤◌, length, slice_index};
ghost use Rattle.xchacha_core.specs.ChaCha.{serialized, words_at};
ghost use Rattle.xchacha_core.specs.Rows.{HasWidth, block_state};
ghost use Rattle.xchacha_core.specs.Stream.{xored};

use std::simd::{u8x16, u32x4};

/// The rows of a state, of four words each (RFC 8439, 2.3).
pub type Rows = (u32x4, u32x4, u32x4, u32x4);

/// Four words of some bytes, from the i-th on, each low byte first.
#[inline(always)]
pub fn row_at(bytes: &[u8], i: usize) -> u32x4
    requires { 4 * i + 16 ≤ length bytes.now }
    ensures { result ≡ words_at bytes.now i }
{
    u32x4::from_le_bytes(u8x16::from_slice(&bytes[4 * i..]))
}

// The bytes of a row, each word low byte first.
#[inline(always)]
fn bytes_of(row: u32x4) -> u8x16
    requires { length row ≡ 4 }
    ensures { result ≡ serialized row }
{
    row.to_le_bytes()
}

/// Writes the bytes of a row over 16 bytes.
#[inline(always)]
pub fn write_row(row: u32x4, bytes: &mut [u8])
    requires { (length row ≡ 4) × (length bytes.old ≡ 16) }
    ensures { bytes.new ≡ serialized row }
{
    bytes_of(row).copy_to_slice(bytes);
}

#[inline(always)]
fn xor_row(row: u32x4, piece: &mut [u8])
    requires { (length row ≡ 4) × (length piece.old ≡ 16) }
    ensures { piece.new ≡ xored (slice_index (serialized row)) 0 piece.old }
{
    (u8x16::from_slice(piece) ^ bytes_of(row)).copy_to_slice(piece);
}

/// Xors the 64 bytes of a piece with the bytes of four rows.
#[inline(always)]
pub fn xor_rows(first: u32x4, second: u32x4, third: u32x4, fourth: u32x4, piece: &mut [u8])
    requires wide { HasWidth 4 (first, second, third, fourth) }
    requires length { length piece.old ≡ 64 }
    ensures { piece.new ≡ xored (slice_index (serialized (block_state (first, second, third, fourth) 0))) 0 piece.old }
{
    xor_row(first, &mut piece[..16]);
    xor_row(second, &mut piece[16..32]);
    xor_row(third, &mut piece[32..48]);
    xor_row(fourth, &mut piece[48..64]);
}
