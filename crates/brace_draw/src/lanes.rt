// Words of four streams side by side: each word of the state is a vector with a lane a stream.

ghost use Rattle.std.specs.Prelude.{◌≡◌, ℕ, ◌+◌, ◌*◌, ◌/◌, ◌%◌, ◌^◌, ◌<◌, slice_index};
ghost use Rattle.rand_chacha.specs.Block.{add32, xor_rotate, quarter_round, column_round, diagonal_round, double_rounds, initial_state};
ghost use Rattle.rand_chacha.specs.ChaCha.{word_at};
ghost use Rattle.rand_chacha.specs.Lanes.{lane};

use std::simd::u32x4;

#[inline(always)]
fn add(a: u32x4, b: u32x4) -> u32x4
    ensures { (j : ℕ) → j < 4 → slice_index result j ≡ add32 (slice_index a j) (slice_index b j) }
{
    a + b
}

#[inline(always)]
#[tactic(auto, using(rand_chacha::proofs::LaneLemmas::shifts_rotate))]
fn xor_rotate(a: u32x4, b: u32x4, k: u32) -> u32x4
    requires { (0 < k) × (k < 32) }
    ensures { (j : ℕ) → j < 4
        → slice_index result j ≡ xor_rotate (slice_index a j) (slice_index b j) k }
{
    let x = a ^ b;
    (x << u32x4::splat(k)) | (x >> u32x4::splat(32 - k))
}

#[inline(always)]
#[tactic(auto, unfolding(rand_chacha::specs::Block::quarter_round))]
fn quarter_round(a: u32x4, b: u32x4, c: u32x4, d: u32x4) -> (u32x4, u32x4, u32x4, u32x4)
    ensures { (j : ℕ) → j < 4
        → (
          slice_index result.0 j,
          slice_index result.1 j,
          slice_index result.2 j,
          slice_index result.3 j,
        )
        ≡ quarter_round (slice_index a j) (slice_index b j) (slice_index c j) (slice_index d j) }
{
    let a1 = add(a, b);
    let d1 = xor_rotate(d, a1, 16);
    let c1 = add(c, d1);
    let b1 = xor_rotate(b, c1, 12);
    let a2 = add(a1, b1);
    let d2 = xor_rotate(d1, a2, 8);
    let c2 = add(c1, d2);
    let b2 = xor_rotate(b1, c2, 7);
    (a2, b2, c2, d2)
}

#[inline(always)]
#[tactic(auto, unfolding(rand_chacha::specs::Block::column_round))]
fn column_round(x: [u32x4; 16]) -> [u32x4; 16]
    ensures { (j : ℕ) → j < 4 → lane j result ≡ column_round (lane j x) }
{
    let (a0, b0, c0, d0) = quarter_round(x[0], x[4], x[8], x[12]);
    let (a1, b1, c1, d1) = quarter_round(x[1], x[5], x[9], x[13]);
    let (a2, b2, c2, d2) = quarter_round(x[2], x[6], x[10], x[14]);
    let (a3, b3, c3, d3) = quarter_round(x[3], x[7], x[11], x[15]);
    [
        a0, a1, a2, a3, b0, b1, b2, b3, c0, c1, c2, c3, d0, d1, d2, d3,
    ]
}

#[inline(always)]
#[tactic(auto, unfolding(rand_chacha::specs::Block::diagonal_round))]
fn diagonal_round(x: [u32x4; 16]) -> [u32x4; 16]
    ensures { (j : ℕ) → j < 4 → lane j result ≡ diagonal_round (lane j x) }
{
    let (a0, b0, c0, d0) = quarter_round(x[0], x[5], x[10], x[15]);
    let (a1, b1, c1, d1) = quarter_round(x[1], x[6], x[11], x[12]);
    let (a2, b2, c2, d2) = quarter_round(x[2], x[7], x[8], x[13]);
    let (a3, b3, c3, d3) = quarter_round(x[3], x[4], x[9], x[14]);
    [
        a0, a1, a2, a3, b3, b0, b1, b2, c2, c3, c0, c1, d1, d2, d3, d0,
    ]
}

// One word of the states after a diagonal round: no more of the round is computed than it takes.
#[inline(always)]
#[tactic(auto, unfolding(rand_chacha::specs::Block::diagonal_round))]
fn diagonal_word(x: [u32x4; 16], k: usize) -> u32x4
    requires { k < 16 }
    ensures { (j : ℕ) → j < 4
        → slice_index result j ≡ slice_index (diagonal_round (lane j x)) k }
{
    match k {
        0 => quarter_round(x[0], x[5], x[10], x[15]).0,
        1 => quarter_round(x[1], x[6], x[11], x[12]).0,
        2 => quarter_round(x[2], x[7], x[8], x[13]).0,
        3 => quarter_round(x[3], x[4], x[9], x[14]).0,
        4 => quarter_round(x[3], x[4], x[9], x[14]).1,
        5 => quarter_round(x[0], x[5], x[10], x[15]).1,
        6 => quarter_round(x[1], x[6], x[11], x[12]).1,
        7 => quarter_round(x[2], x[7], x[8], x[13]).1,
        8 => quarter_round(x[2], x[7], x[8], x[13]).2,
        9 => quarter_round(x[3], x[4], x[9], x[14]).2,
        10 => quarter_round(x[0], x[5], x[10], x[15]).2,
        11 => quarter_round(x[1], x[6], x[11], x[12]).2,
        12 => quarter_round(x[1], x[6], x[11], x[12]).3,
        13 => quarter_round(x[2], x[7], x[8], x[13]).3,
        14 => quarter_round(x[3], x[4], x[9], x[14]).3,
        15 => quarter_round(x[0], x[5], x[10], x[15]).3,
        _ => diagonal_round(x)[k],
    }
}

#[inline(always)]
fn low(x: u64) -> u32
    ensures { result ≡ x % 2 ^ 32 }
{
    (x & 0xffff_ffff) as u32
}

#[inline(always)]
fn high(x: u64) -> u32
    ensures { result ≡ x / 2 ^ 32 }
{
    (x >> 32) as u32
}

#[inline(always)]
fn initial_states(key: &[u32; 8], block: u64, streams: [u64; 4]) -> [u32x4; 16]
    ensures { (j : ℕ) → j < 4
        → lane j result ≡ initial_state key.now block (slice_index streams j) }
{
    let [s0, s1, s2, s3] = streams;
    [
        u32x4::splat(0x6170_7865),
        u32x4::splat(0x3320_646e),
        u32x4::splat(0x7962_2d32),
        u32x4::splat(0x6b20_6574),
        u32x4::splat(key[0]),
        u32x4::splat(key[1]),
        u32x4::splat(key[2]),
        u32x4::splat(key[3]),
        u32x4::splat(key[4]),
        u32x4::splat(key[5]),
        u32x4::splat(key[6]),
        u32x4::splat(key[7]),
        u32x4::splat(low(block)),
        u32x4::splat(high(block)),
        u32x4::from_array([low(s0), low(s1), low(s2), low(s3)]),
        u32x4::from_array([high(s0), high(s1), high(s2), high(s3)]),
    ]
}

// The states of four streams before the last round.
#[inline(always)]
fn rounds(first: [u32x4; 16]) -> [u32x4; 16]
    ensures { (j : ℕ) → j < 4
        → lane j result ≡ column_round (double_rounds 3 (lane j first)) }
{
    let mut x = first;
    'rounds: for _round in 0..3u32 {
        x = diagonal_round(column_round(x));
    }
    let last = column_round(x);
    last
}

// One word of a block of four streams, of which the states before the rounds and before the last
// one are given.
#[inline(always)]
fn word(first: &[u32x4; 16], before: [u32x4; 16], k: usize) -> [u32; 4]
    requires { k < 16 }
    ensures { (j : ℕ) → j < 4 → slice_index result j
        ≡ add32 (slice_index (diagonal_round (lane j before)) k)
        (slice_index (lane j first.now) k) }
{
    let last = diagonal_word(before, k);
    add(last, first[k]).to_array()
}

/// The words of four streams at one place.
pub fn words(key: &[u32; 8], place: u64, streams: [u64; 4]) -> [u32; 4]
    ensures { (j : ℕ) → j < 4
        → slice_index result j ≡ word_at 4 key.now (slice_index streams j) place }
{
    let first = initial_states(key, place / 16, streams);
    let before = rounds(first);
    word(&first, before, (place % 16) as usize)
}

/// The words of four streams at two places. Those of one block take one computation.
pub fn pairs(key: &[u32; 8], places: (u64, u64), streams: [u64; 4]) -> ([u32; 4], [u32; 4])
    ensures first { (j : ℕ) → j < 4
        → slice_index result.0 j ≡ word_at 4 key.now (slice_index streams j) places.0 }
    ensures second { (j : ℕ) → j < 4
        → slice_index result.1 j ≡ word_at 4 key.now (slice_index streams j) places.1 }
{
    let (one, other) = places;
    if one / 16 != other / 16 {
        return (words(key, one, streams), words(key, other, streams));
    }
    let first = initial_states(key, one / 16, streams);
    let before = rounds(first);
    (
        word(&first, before, (one % 16) as usize),
        word(&first, before, (other % 16) as usize),
    )
}
