//! The digests of eight messages.

ghost use Rattle.std.specs.Prelude.{◌≡◌, ℕ, ◌+◌, ◌*◌, ◌%◌, ◌^◌, ◌<◌, ◌≤◌, ◌∷◌, ◌++◌, [], length, replicate, slice_index_or};
ghost use Rattle.std.specs.Int.{w64, to_be_bytes};
ghost use Rattle.sha2.specs.Sha256.{digest_bytes, initial_hash_256, sha256};
ghost use Rattle.oftp_digest.specs.Lanes.{lane, part};
ghost use Rattle.oftp_digest.specs.declared.digests.TheConstants.{BLOCK_LEN};

use crate::constants::INITIAL;
use crate::rounds::compress;
use crate::words::Words;

/// How many messages are digested at once.
pub const LANES: usize = 8;

/// The length of a block of SHA-256 in octets.
pub const BLOCK_LEN: usize = 64;

/// The length of a digest in octets.
const DIGEST_LEN: usize = 32;

// The hash value of each message before its first block.
fn initial() -> [Words; 8]
    ensures { (j : ℕ) → j < 4 → lane result j ≡ initial_hash_256 }
{
    [
        Words::splat(INITIAL[0]),
        Words::splat(INITIAL[1]),
        Words::splat(INITIAL[2]),
        Words::splat(INITIAL[3]),
        Words::splat(INITIAL[4]),
        Words::splat(INITIAL[5]),
        Words::splat(INITIAL[6]),
        Words::splat(INITIAL[7]),
    ]
}

// The block behind a message of whole blocks: a bit 1, zeros, and the number of its bits (5.1.1).
fn padding(count: usize) -> [u8; 64]
    ensures { result ≡ 0x80 ∷ (replicate 55 0 ++ to_be_bytes w64 (count * 8 % 2 ^ 64)) }
{
    let [a, b, c, d, e, f, g, h] = (count as u64).wrapping_mul(8).to_be_bytes();
    [
        0x80, 0, 0, 0, 0, 0, 0, 0, 0, 0, 0, 0, 0, 0, 0, 0, 0, 0, 0, 0, 0, 0, 0, 0, 0, 0, 0, 0, 0,
        0, 0, 0, 0, 0, 0, 0, 0, 0, 0, 0, 0, 0, 0, 0, 0, 0, 0, 0, 0, 0, 0, 0, 0, 0, 0, 0, a, b, c,
        d, e, f, g, h,
    ]
}

// The words of one message.
fn words_of(state: &[[u32; 4]; 8], message: usize) -> [u32; 8]
    requires { message < 4 }
    ensures { result ≡ lane state.now message }
{
    [
        state[0][message],
        state[1][message],
        state[2][message],
        state[3][message],
        state[4][message],
        state[5][message],
        state[6][message],
        state[7][message],
    ]
}

// A hash value as octets.
fn octets_of(words: [u32; 8]) -> [u8; 32]
    ensures { result ≡ digest_bytes words 8 }
{
    let mut octets = [0; DIGEST_LEN];
    'words: for i in 0..8 {
        octets[4 * i..4 * i + 4].copy_from_slice(&words[i].to_be_bytes());
    }
    octets
}

// The hash value of each message as octets.
fn digests(state: &[Words; 8]) -> [[u8; 32]; 4]
    ensures { (j : ℕ) → j < 4 → slice_index_or result j [] ≡ digest_bytes (lane state.now j) 8 }
{
    let words = [
        state[0].to_array(),
        state[1].to_array(),
        state[2].to_array(),
        state[3].to_array(),
        state[4].to_array(),
        state[5].to_array(),
        state[6].to_array(),
        state[7].to_array(),
    ];
    [
        octets_of(words_of(&words, 0)),
        octets_of(words_of(&words, 1)),
        octets_of(words_of(&words, 2)),
        octets_of(words_of(&words, 3)),
    ]
}

// The SHA-256 of each of four messages of `count` octets, side by side.
fn digests_of_four(octets: &[u8], stride: usize, count: usize) -> [[u8; 32]; 4]
    requires there { 3 * stride + count ≤ length octets.now }
    requires blocks { count % BLOCK_LEN ≡ 0 }
    ensures { (j : ℕ) → j < 4 → slice_index_or result j [] ≡ sha256 (part octets.now (j * stride) count) }
{
    let mut state = initial();
    'absorb: for i in 0..count / BLOCK_LEN {
        state = compress(&state, octets, stride, BLOCK_LEN * i);
    }
    digests(&compress(&state, &padding(count), 0, 0))
}

/// The SHA-256 of each of eight messages of `count` octets. The first one begins where `octets` begin, and each other one `stride` octets behind the
/// one before it. They are there, and are whole blocks: `count` is a multiple of 64. It takes no memory.
pub fn digests_of_eight(octets: &[u8], stride: usize, count: usize) -> [[u8; 32]; 8]
    requires there { 7 * stride + count ≤ length octets.now }
    requires blocks { count % BLOCK_LEN ≡ 0 }
    ensures { (j : ℕ) → j < 8 → slice_index_or result j [] ≡ sha256 (part octets.now (j * stride) count) }
{
    let [a, b, c, d] = digests_of_four(octets, stride, count);
    let [e, f, g, h] = digests_of_four(&octets[4 * stride..], stride, count);
    [a, b, c, d, e, f, g, h]
}
