// One block of ChaCha20 (RFC 8439, 2.3): a column of its rows is a lane of four vectors.

ghost use Rattle.std.specs.Prelude.{◌≡◌, ℕ, ◌<◌, length};
ghost use Rattle.xchacha_core.specs.ChaCha.{column_round, diagonal_round, double_rounds};
ghost use Rattle.xchacha_core.specs.Rows.{HasWidth, block_state, byte_of_blocks, column, quarter_column, turned};
ghost use Rattle.xchacha_core.specs.Stream.{xored};

use crate::rows::{Rows, xor_rows};
use std::simd::u32x4;

// The quarter round on every column (2.1).
#[inline(always)]
fn quarter_columns(rows: Rows) -> Rows
    requires { HasWidth 4 rows }
    ensures wide { HasWidth 4 result }
    ensures columns { (i : ℕ) → i < 4 → column result i ≡ quarter_column rows i }
{
    let (a, b, c, d) = rows;
    let a = a + b;
    let d = d ^ a;
    let d = (d << u32x4::splat(16)) | (d >> u32x4::splat(16));
    let c = c + d;
    let b = b ^ c;
    let b = (b << u32x4::splat(12)) | (b >> u32x4::splat(20));
    let a = a + b;
    let d = d ^ a;
    let d = (d << u32x4::splat(8)) | (d >> u32x4::splat(24));
    let c = c + d;
    let b = b ^ c;
    let b = (b << u32x4::splat(7)) | (b >> u32x4::splat(25));
    (a, b, c, d)
}

// A row whose words stand so many places further to the left.
#[inline(always)]
fn turned_by_one(row: u32x4) -> u32x4
    requires { length row ≡ 4 }
    ensures { result ≡ turned 4 1 row }
{
    row.swizzle([1, 2, 3, 0])
}

#[inline(always)]
fn turned_by_two(row: u32x4) -> u32x4
    requires { length row ≡ 4 }
    ensures { result ≡ turned 4 2 row }
{
    row.swizzle([2, 3, 0, 1])
}

#[inline(always)]
fn turned_by_three(row: u32x4) -> u32x4
    requires { length row ≡ 4 }
    ensures { result ≡ turned 4 3 row }
{
    row.swizzle([3, 0, 1, 2])
}

// Turns the rows so that the diagonals stand as columns, and back. The second row stays, since it is
// what the quarter round gives last, and the others are turned against it.
#[inline(always)]
fn double_round(rows: Rows) -> Rows
    requires { HasWidth 4 rows }
    ensures wide { HasWidth 4 result }
    ensures state { block_state result 0 ≡ diagonal_round (column_round (block_state rows 0)) }
{
    let (a, b, c, d) = quarter_columns(rows);
    let (a, b, c, d) = quarter_columns((turned_by_three(a), b, turned_by_one(c), turned_by_two(d)));
    (turned_by_one(a), b, turned_by_three(c), turned_by_two(d))
}

/// The rows after ten double rounds (2.3).
#[inline(always)]
pub fn ten_double_rounds(start: Rows) -> Rows
    requires { HasWidth 4 start }
    ensures wide { HasWidth 4 result }
    ensures state { block_state result 0 ≡ double_rounds 10 (block_state start 0) }
{
    let mut rows = start;
    'rounds: for _round in 0..10u32 {
        rows = double_round(rows);
    }
    rows
}

/// Xors 64 bytes with the block that has this counter in place of the first word of the last row.
pub fn xor_block(start: &Rows, counter: u32, piece: &mut [u8])
    requires { HasWidth 4 start.now × (length piece.old ≡ 64) }
    ensures { piece.new ≡ xored (byte_of_blocks (block_state start.now 0) counter) 0 piece.old }
{
    let (a, b, c, d) = *start;
    let [_, second, third, fourth] = d.to_array();
    let d = u32x4::from_array([counter, second, third, fourth]);
    let (e, f, g, h) = ten_double_rounds((a, b, c, d));
    xor_rows(e + a, f + b, g + c, h + d, piece);
}
