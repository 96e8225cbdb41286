// Sixteen blocks at a time: a vector for each of a block's bytes, and a lane for each block.

ghost use Rattle.std.specs.Prelude.{◌≡◌, ℕ, [], ◌<◌, slice_index_or};
ghost use Rattle.seal_model.specs.Bytes.{xor_bytes};
ghost use Rattle.seal_model.specs.Aes.{cipher, mix_columns, shift_rows, sub_bytes};
ghost use Rattle.aes_block.specs.Lanes.{columns, lane};

use crate::key::round_key;
use crate::lanes::{mixed, plus, substitute};
use std::simd::prelude::*;

/// The encryption of each block under a key schedule.
pub fn cipher16(words: &[[u8; 4]; 60], state: [u8x16; 16]) -> [u8x16; 16]
    ensures { (j : ℕ) → j < 16 → lane j result ≡ cipher words.now (lane j state) }
{
    let mut next = add_key(state, round_key(words, 0));
    for round in 1..14 {
        next = add_key(
            mix_blocks(shift_blocks(substitute_blocks(next))),
            round_key(words, round),
        );
    }
    add_key(shift_blocks(substitute_blocks(next)), round_key(words, 14))
}

// SubBytes of each block.
fn substitute_blocks(state: [u8x16; 16]) -> [u8x16; 16]
    ensures { (j : ℕ) → j < 16 → lane j result ≡ sub_bytes (lane j state) }
{
    [
        substitute(state[0]),
        substitute(state[1]),
        substitute(state[2]),
        substitute(state[3]),
        substitute(state[4]),
        substitute(state[5]),
        substitute(state[6]),
        substitute(state[7]),
        substitute(state[8]),
        substitute(state[9]),
        substitute(state[10]),
        substitute(state[11]),
        substitute(state[12]),
        substitute(state[13]),
        substitute(state[14]),
        substitute(state[15]),
    ]
}

// ShiftRows of each block.
#[tactic(auto, unfolding(seal_model::specs::Aes::shift_rows))]
fn shift_blocks(state: [u8x16; 16]) -> [u8x16; 16]
    ensures { (j : ℕ) → j < 16 → lane j result ≡ shift_rows (lane j state) }
{
    let x = state;
    [
        x[0], x[5], x[10], x[15], x[4], x[9], x[14], x[3], x[8], x[13], x[2], x[7], x[12], x[1],
        x[6], x[11],
    ]
}

// MixColumns of each block.
fn mix_blocks(state: [u8x16; 16]) -> [u8x16; 16]
    ensures { (j : ℕ) → j < 16 → lane j result ≡ mix_columns (lane j state) }
{
    let x = state;
    [
        mixed(x[0], x[1], x[2], x[3]),
        mixed(x[1], x[2], x[3], x[0]),
        mixed(x[2], x[3], x[0], x[1]),
        mixed(x[3], x[0], x[1], x[2]),
        mixed(x[4], x[5], x[6], x[7]),
        mixed(x[5], x[6], x[7], x[4]),
        mixed(x[6], x[7], x[4], x[5]),
        mixed(x[7], x[4], x[5], x[6]),
        mixed(x[8], x[9], x[10], x[11]),
        mixed(x[9], x[10], x[11], x[8]),
        mixed(x[10], x[11], x[8], x[9]),
        mixed(x[11], x[8], x[9], x[10]),
        mixed(x[12], x[13], x[14], x[15]),
        mixed(x[13], x[14], x[15], x[12]),
        mixed(x[14], x[15], x[12], x[13]),
        mixed(x[15], x[12], x[13], x[14]),
    ]
}

// The sum of each block and a round key.
fn add_key(state: [u8x16; 16], key: [u8; 16]) -> [u8x16; 16]
    ensures { (j : ℕ) → j < 16 → lane j result ≡ xor_bytes (lane j state) key }
{
    [
        plus(state[0], key[0]),
        plus(state[1], key[1]),
        plus(state[2], key[2]),
        plus(state[3], key[3]),
        plus(state[4], key[4]),
        plus(state[5], key[5]),
        plus(state[6], key[6]),
        plus(state[7], key[7]),
        plus(state[8], key[8]),
        plus(state[9], key[9]),
        plus(state[10], key[10]),
        plus(state[11], key[11]),
        plus(state[12], key[12]),
        plus(state[13], key[13]),
        plus(state[14], key[14]),
        plus(state[15], key[15]),
    ]
}

// One block, whose length a proof then knows.
fn block_at(blocks: &[[u8; 16]; 16], j: usize) -> [u8; 16]
    requires { j < 16 }
    ensures { result ≡ slice_index_or blocks.now j [] }
{
    blocks[j]
}

// Byte `k` of each row.
fn column(rows: &[[u8; 16]; 16], k: usize) -> [u8; 16]
    requires { k < 16 }
    ensures { result ≡ lane k rows.now }
{
    [
        rows[0][k],
        rows[1][k],
        rows[2][k],
        rows[3][k],
        rows[4][k],
        rows[5][k],
        rows[6][k],
        rows[7][k],
        rows[8][k],
        rows[9][k],
        rows[10][k],
        rows[11][k],
        rows[12][k],
        rows[13][k],
        rows[14][k],
        rows[15][k],
    ]
}

/// The vectors of sixteen blocks.
pub fn loaded(blocks: &[[u8; 16]; 16]) -> [u8x16; 16]
    ensures { (j : ℕ) → j < 16 → lane j result ≡ slice_index_or blocks.now j [] }
{
    let rows = [
        block_at(blocks, 0),
        block_at(blocks, 1),
        block_at(blocks, 2),
        block_at(blocks, 3),
        block_at(blocks, 4),
        block_at(blocks, 5),
        block_at(blocks, 6),
        block_at(blocks, 7),
        block_at(blocks, 8),
        block_at(blocks, 9),
        block_at(blocks, 10),
        block_at(blocks, 11),
        block_at(blocks, 12),
        block_at(blocks, 13),
        block_at(blocks, 14),
        block_at(blocks, 15),
    ];
    [
        u8x16::from_array(column(&rows, 0)),
        u8x16::from_array(column(&rows, 1)),
        u8x16::from_array(column(&rows, 2)),
        u8x16::from_array(column(&rows, 3)),
        u8x16::from_array(column(&rows, 4)),
        u8x16::from_array(column(&rows, 5)),
        u8x16::from_array(column(&rows, 6)),
        u8x16::from_array(column(&rows, 7)),
        u8x16::from_array(column(&rows, 8)),
        u8x16::from_array(column(&rows, 9)),
        u8x16::from_array(column(&rows, 10)),
        u8x16::from_array(column(&rows, 11)),
        u8x16::from_array(column(&rows, 12)),
        u8x16::from_array(column(&rows, 13)),
        u8x16::from_array(column(&rows, 14)),
        u8x16::from_array(column(&rows, 15)),
    ]
}

/// The blocks of these vectors.
pub fn stored(state: [u8x16; 16]) -> [[u8; 16]; 16]
    ensures { result ≡ columns state }
{
    let rows = [
        state[0].to_array(),
        state[1].to_array(),
        state[2].to_array(),
        state[3].to_array(),
        state[4].to_array(),
        state[5].to_array(),
        state[6].to_array(),
        state[7].to_array(),
        state[8].to_array(),
        state[9].to_array(),
        state[10].to_array(),
        state[11].to_array(),
        state[12].to_array(),
        state[13].to_array(),
        state[14].to_array(),
        state[15].to_array(),
    ];
    [
        column(&rows, 0),
        column(&rows, 1),
        column(&rows, 2),
        column(&rows, 3),
        column(&rows, 4),
        column(&rows, 5),
        column(&rows, 6),
        column(&rows, 7),
        column(&rows, 8),
        column(&rows, 9),
        column(&rows, 10),
        column(&rows, 11),
        column(&rows, 12),
        column(&rows, 13),
        column(&rows, 14),
        column(&rows, 15),
    ]
}
