// Two blocks of ChaCha20 at once (RFC 8439, 2.3): the rows of their states stand side by side in four
// vectors, so that a block has its columns in four lanes.

ghost use Rattle.std.specs.Prelude.{◌≡◌, ℕ, ◌+◌, ◌<◌, ◌≤◌, ◌^◌, length, slice_set};
ghost use Rattle.xchacha_core.specs.ChaCha.{column_round, diagonal_round, double_rounds};
ghost use Rattle.xchacha_core.specs.Rows.{HasWidth, block_state, byte_of_blocks, column, quarter_column, repeated, turned};
ghost use Rattle.xchacha_core.specs.Stream.{xored};

use crate::rows::{Rows, xor_rows};
use std::simd::{u32x4, u32x8};

// The rows of two blocks.
type SideBySide = (u32x8, u32x8, u32x8, u32x8);

// The quarter round on every column (2.1).
#[inline(always)]
fn quarter_columns(rows: SideBySide) -> SideBySide
    requires { HasWidth 8 rows }
    ensures wide { HasWidth 8 result }
    ensures columns { (i : ℕ) → i < 8 → column result i ≡ quarter_column rows i }
{
    let (a, b, c, d) = rows;
    let a = a + b;
    let d = d ^ a;
    let d = (d << u32x8::splat(16)) | (d >> u32x8::splat(16));
    let c = c + d;
    let b = b ^ c;
    let b = (b << u32x8::splat(12)) | (b >> u32x8::splat(20));
    let a = a + b;
    let d = d ^ a;
    let d = (d << u32x8::splat(8)) | (d >> u32x8::splat(24));
    let c = c + d;
    let b = b ^ c;
    let b = (b << u32x8::splat(7)) | (b >> u32x8::splat(25));
    (a, b, c, d)
}

// A row in which the words of each block stand so many places further to the left.
#[inline(always)]
fn turned_by_one(row: u32x8) -> u32x8
    requires { length row ≡ 8 }
    ensures { result ≡ turned 8 1 row }
{
    row.swizzle([1, 2, 3, 0, 5, 6, 7, 4])
}

#[inline(always)]
fn turned_by_two(row: u32x8) -> u32x8
    requires { length row ≡ 8 }
    ensures { result ≡ turned 8 2 row }
{
    row.swizzle([2, 3, 0, 1, 6, 7, 4, 5])
}

#[inline(always)]
fn turned_by_three(row: u32x8) -> u32x8
    requires { length row ≡ 8 }
    ensures { result ≡ turned 8 3 row }
{
    row.swizzle([3, 0, 1, 2, 7, 4, 5, 6])
}

// Turns the rows of each block so that its diagonals stand as columns, and back, as for one block.
#[inline(always)]
fn double_round(rows: SideBySide) -> SideBySide
    requires { HasWidth 8 rows }
    ensures wide { HasWidth 8 result }
    ensures states { (b : ℕ) → b < 2 → block_state result b ≡ diagonal_round (column_round (block_state rows b)) }
{
    let (a, b, c, d) = quarter_columns(rows);
    let (a, b, c, d) = quarter_columns((turned_by_three(a), b, turned_by_one(c), turned_by_two(d)));
    (turned_by_one(a), b, turned_by_three(c), turned_by_two(d))
}

#[inline(always)]
fn ten_double_rounds(start: SideBySide) -> SideBySide
    requires { HasWidth 8 start }
    ensures wide { HasWidth 8 result }
    ensures states { (b : ℕ) → b < 2 → block_state result b ≡ double_rounds 10 (block_state start b) }
{
    let mut rows = start;
    'rounds: for _round in 0..10u32 {
        rows = double_round(rows);
    }
    rows
}

// A row of one block, again for each.
#[inline(always)]
fn repeated(row: u32x4) -> u32x8
    requires { length row ≡ 4 }
    ensures { result ≡ repeated 8 row }
{
    row.swizzle([0, 1, 2, 3, 0, 1, 2, 3])
}

// The states of the block with this counter and of the next.
#[inline(always)]
fn begun(start: &Rows, counter: u32) -> SideBySide
    requires { HasWidth 4 start.now × (counter + 2 ≤ 2 ^ 32) }
    ensures wide { HasWidth 8 result }
    ensures states { (b : ℕ) → b < 2 → block_state result b ≡ slice_set (block_state start.now 0) 12 (counter + b) }
{
    let (a, b, c, d) = *start;
    let [_, second, third, fourth] = d.to_array();
    let counted = u32x8::from_array([
        counter,
        second,
        third,
        fourth,
        counter + 1,
        second,
        third,
        fourth,
    ]);
    (repeated(a), repeated(b), repeated(c), counted)
}

/// Xors 128 bytes with the block that has this counter in place of the first word of the last row, and
/// with the next.
pub fn xor_two_blocks(start: &Rows, counter: u32, piece: &mut [u8])
    requires wide { HasWidth 4 start.now }
    requires counters { counter + 2 ≤ 2 ^ 32 }
    requires length { length piece.old ≡ 128 }
    ensures { piece.new ≡ xored (byte_of_blocks (block_state start.now 0) counter) 0 piece.old }
{
    let (a, b, c, d) = begun(start, counter);
    let (e, f, g, h) = ten_double_rounds((a, b, c, d));
    let (a, b, c, d) = (e + a, f + b, g + c, h + d);
    xor_rows(
        a.extract::<0, 4>(),
        b.extract::<0, 4>(),
        c.extract::<0, 4>(),
        d.extract::<0, 4>(),
        &mut piece[0..64],
    );
    xor_rows(
        a.extract::<4, 4>(),
        b.extract::<4, 4>(),
        c.extract::<4, 4>(),
        d.extract::<4, 4>(),
        &mut piece[64..128],
    );
}
