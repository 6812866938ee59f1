// The mixing function G and the compression function F of BLAKE2b (RFC 7693, sections 3.1 and 3.2), with
// the working vector as four rows of four words: G on the four columns, and then on the four diagonals,
// is one step of vectors with a lane for each.

ghost use Rattle.std.specs.Prelude.{◌≡◌, ℕ, ◌+◌, ◌*◌, ◌<◌, ◌≤◌, All, [], ◌∷◌, length, map, slice_index};
ghost use Rattle.std.specs.Int.{w64, rotate_right};
ghost use Rattle.blake2b_core.specs.Compression.{compress, fold_halves, message_words, mix_columns, round, vector_of, word_at, working_vector};

use std::simd::{u8x32, u64x4};

type Row = [u64; 4];

type Rows = (Row, Row, Row, Row);

// The initialization vector (2.6).
pub(crate) const IV: [u64; 8] = [
    0x6a09_e667_f3bc_c908,
    0xbb67_ae85_84ca_a73b,
    0x3c6e_f372_fe94_f82b,
    0xa54f_f53a_5f1d_36f1,
    0x510e_527f_ade6_82d1,
    0x9b05_688c_2b3e_6c1f,
    0x1f83_d9ab_fb41_bd6b,
    0x5be0_cd19_137e_2179,
];

// The message schedule (2.7).
const SIGMA: [[usize; 16]; 10] = [
    [0, 1, 2, 3, 4, 5, 6, 7, 8, 9, 10, 11, 12, 13, 14, 15],
    [14, 10, 4, 8, 9, 15, 13, 6, 1, 12, 0, 2, 11, 7, 5, 3],
    [11, 8, 12, 0, 5, 2, 15, 13, 10, 14, 3, 6, 7, 1, 9, 4],
    [7, 9, 3, 1, 13, 12, 11, 14, 2, 6, 5, 10, 4, 0, 15, 8],
    [9, 0, 5, 7, 2, 4, 10, 15, 14, 1, 11, 12, 6, 8, 3, 13],
    [2, 12, 6, 10, 0, 11, 8, 3, 4, 13, 7, 5, 15, 14, 1, 9],
    [12, 5, 1, 15, 14, 13, 4, 10, 0, 7, 6, 3, 9, 2, 8, 11],
    [13, 11, 7, 14, 12, 1, 3, 9, 5, 0, 15, 4, 8, 6, 2, 10],
    [6, 15, 14, 9, 11, 3, 0, 8, 12, 2, 13, 7, 1, 4, 10, 5],
    [10, 2, 8, 4, 7, 6, 1, 5, 15, 11, 9, 14, 3, 12, 13, 0],
];

// Each lane turned to the right by this many bits.
#[inline(always)]
fn rotate_right(lanes: u64x4, by: u64) -> u64x4
    requires { (0 < by) × (by < 64) × (length lanes ≡ 4) }
    ensures { result ≡ map (λ n. rotate_right w64 n by) lanes }
{
    (lanes >> u64x4::splat(by)) | (lanes << u64x4::splat(64 - by))
}

// The words of a row, each in its lane.
#[inline(always)]
fn lanes_of(row: Row) -> u64x4
    ensures { result ≡ slice_index row 0 ∷ slice_index row 1 ∷ slice_index row 2 ∷ slice_index row 3 ∷ [] }
{
    let [first, second, third, fourth] = row;
    u64x4::from_array([first, second, third, fourth])
}

// G on four columns at once, whose words stand at one place of the rows. The sum of three is written as
// the standard has it.
#[inline(always)]
fn mix_columns(rows: Rows, x: Row, y: Row) -> Rows
    ensures { result ≡ mix_columns rows x y }
{
    let (a, b, c, d) = (
        lanes_of(rows.0),
        lanes_of(rows.1),
        lanes_of(rows.2),
        lanes_of(rows.3),
    );
    let a = a + b + lanes_of(x);
    let d = rotate_right(d ^ a, 32);
    let c = c + d;
    let b = rotate_right(b ^ c, 24);
    let a = a + b + lanes_of(y);
    let d = rotate_right(d ^ a, 16);
    let c = c + d;
    let b = rotate_right(b ^ c, 63);
    (a.to_array(), b.to_array(), c.to_array(), d.to_array())
}

// A row whose words stand so many places further to the left.
#[inline(always)]
fn turned_by_one(row: Row) -> Row
    ensures { result ≡ slice_index row 1 ∷ slice_index row 2 ∷ slice_index row 3 ∷ slice_index row 0 ∷ [] }
{
    let [first, second, third, fourth] = row;
    [second, third, fourth, first]
}

#[inline(always)]
fn turned_by_two(row: Row) -> Row
    ensures { result ≡ slice_index row 2 ∷ slice_index row 3 ∷ slice_index row 0 ∷ slice_index row 1 ∷ [] }
{
    let [first, second, third, fourth] = row;
    [third, fourth, first, second]
}

#[inline(always)]
fn turned_by_three(row: Row) -> Row
    ensures { result ≡ slice_index row 3 ∷ slice_index row 0 ∷ slice_index row 1 ∷ slice_index row 2 ∷ [] }
{
    let [first, second, third, fourth] = row;
    [fourth, first, second, third]
}

// Turns the rows so that the diagonals stand as columns, and back. The second row stays, since it is
// what G gives last, and the others are turned against it; the diagonals begin with the last.
#[inline(always)]
fn round(rows: Rows, m: &[u64; 16], s: &[usize; 16]) -> Rows
    requires { All (λ i. i < 16) s.now }
    ensures { vector_of result ≡ round m.now s.now (vector_of rows) }
{
    let (a, b, c, d) = mix_columns(
        rows,
        [m[s[0]], m[s[2]], m[s[4]], m[s[6]]],
        [m[s[1]], m[s[3]], m[s[5]], m[s[7]]],
    );
    let (a, b, c, d) = mix_columns(
        (turned_by_three(a), b, turned_by_one(c), turned_by_two(d)),
        [m[s[14]], m[s[8]], m[s[10]], m[s[12]]],
        [m[s[15]], m[s[9]], m[s[11]], m[s[13]]],
    );
    (turned_by_one(a), b, turned_by_three(c), turned_by_two(d))
}

// Four words of a block, from the i-th on.
#[inline(always)]
fn words_at(block: &[u8], i: usize) -> Row
    requires { 8 * i + 32 ≤ length block.now }
    ensures { result ≡ word_at block.now i ∷ word_at block.now (i + 1) ∷ word_at block.now (i + 2) ∷ word_at block.now (i + 3) ∷ [] }
{
    u64x4::from_le_bytes(u8x32::from_slice(&block[8 * i..])).to_array()
}

#[inline(always)]
fn message_words(block: &[u8]) -> [u64; 16]
    requires { length block.now ≡ 128 }
    ensures { result ≡ message_words block.now }
{
    let [m0, m1, m2, m3] = words_at(block, 0);
    let [m4, m5, m6, m7] = words_at(block, 4);
    let [m8, m9, m10, m11] = words_at(block, 8);
    let [m12, m13, m14, m15] = words_at(block, 12);
    [
        m0, m1, m2, m3, m4, m5, m6, m7, m8, m9, m10, m11, m12, m13, m14, m15,
    ]
}

#[inline(always)]
fn working_vector(state: &[u64; 8], t: u128, last: bool) -> Rows
    ensures { vector_of result ≡ working_vector state.now t last }
{
    let low = (t % (1 << 64)) as u64;
    let high = (t >> 64) as u64;
    let mark = if last { !IV[6] } else { IV[6] };
    (
        [state[0], state[1], state[2], state[3]],
        [state[4], state[5], state[6], state[7]],
        [IV[0], IV[1], IV[2], IV[3]],
        [IV[4] ^ low, IV[5] ^ high, mark, IV[7]],
    )
}

#[inline(always)]
fn fold_halves(state: &mut [u64; 8], rows: Rows)
    ensures { state.new ≡ fold_halves state.old (vector_of rows) }
{
    let upper = lanes_of([state[0], state[1], state[2], state[3]]);
    let lower = lanes_of([state[4], state[5], state[6], state[7]]);
    let [h0, h1, h2, h3] = (upper ^ lanes_of(rows.0) ^ lanes_of(rows.2)).to_array();
    let [h4, h5, h6, h7] = (lower ^ lanes_of(rows.1) ^ lanes_of(rows.3)).to_array();
    *state = [h0, h1, h2, h3, h4, h5, h6, h7];
}

// Runs the 12 rounds over a block. Each round has its row of the schedule as a constant, so that the
// compiled code looks nothing up.
pub(crate) fn compress(state: &mut [u64; 8], block: &[u8], t: u128, last: bool)
    requires { length block.now ≡ 128 }
    ensures { state.new ≡ compress state.old block.now t last }
{
    let m = message_words(block);
    let v = working_vector(state, t, last);
    let v = round(v, &m, &SIGMA[0]);
    let v = round(v, &m, &SIGMA[1]);
    let v = round(v, &m, &SIGMA[2]);
    let v = round(v, &m, &SIGMA[3]);
    let v = round(v, &m, &SIGMA[4]);
    let v = round(v, &m, &SIGMA[5]);
    let v = round(v, &m, &SIGMA[6]);
    let v = round(v, &m, &SIGMA[7]);
    let v = round(v, &m, &SIGMA[8]);
    let v = round(v, &m, &SIGMA[9]);
    let v = round(v, &m, &SIGMA[0]);
    let v = round(v, &m, &SIGMA[1]);
    fold_halves(state, v);
}
