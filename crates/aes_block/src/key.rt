// The key schedule (FIPS 197, section 5.2), and the cipher over it (section 5.1).

ghost use Rattle.std.specs.Prelude.{◌≡◌, ℕ, ◌-◌, ◌<◌, ◌≤◌, List, map};
ghost use Rattle.seal_model.specs.Aes.{cipher, encrypt, key_schedule, key_step};
ghost use Rattle.seal_model.specs.Aes.{key_word, next_word, round_key, x_power};
ghost use Rattle.seal_model.specs.Bytes.{xor_bytes};
ghost use Rattle.aes_block.specs.Key.{key_of};

use crate::blocks::{cipher16, loaded, stored};
use crate::round::{add, double, mix, shift, substitute_bytes};
use crate::s_box::substitute_word;
use std::marker::Model;

/// AES-256 under one key, whose key schedule is computed once. A contract sees the key's 32 bytes.
#[derive(Drop)]
pub struct Aes256 {
    words: [[u8; 4]; 60],
}

impl Model for Aes256 {
    ghost Value = { List ℕ };

    ghost view = { λ a. key_of a.words };

    ghost invariant = { λ a. a.words ≡ key_schedule (key_of a.words) 60 };
}

impl Aes256 {
    /// The cipher under this key.
    pub fn new(key: &[u8; 32]) -> Aes256
        ensures { result ≡ key.now }
    {
        let mut words = [[0; 4]; 60];
        for i in 0..60 {
            words[i] = if i < 8 {
                key_word(key, i)
            } else {
                next_word(&words, i)
            };
        }
        Aes256 { words }
    }

    /// The encryption of one block.
    pub fn encrypt_block(&self, block: [u8; 16]) -> [u8; 16]
        ensures { result ≡ encrypt self.now block }
    {
        cipher(&self.words, block)
    }

    /// The encryption of each of sixteen blocks, over lanes.
    pub fn encrypt16(&self, blocks: &mut [[u8; 16]; 16])
        ensures { blocks.new ≡ map (encrypt self.now) blocks.old }
    {
        *blocks = stored(cipher16(&self.words, loaded(blocks)));
    }
}

fn cipher(words: &[[u8; 4]; 60], block: [u8; 16]) -> [u8; 16]
    ensures { result ≡ cipher words.now block }
{
    let mut state = add(block, round_key(words, 0));
    for round in 1..14 {
        state = add(mix(shift(substitute_bytes(state))), round_key(words, round));
    }
    add(shift(substitute_bytes(state)), round_key(words, 14))
}

/// The round key of a round (5.1.4).
#[tactic(auto, unfolding(seal_model::specs::Aes::round_key))]
pub fn round_key(words: &[[u8; 4]; 60], round: usize) -> [u8; 16]
    requires { round < 15 }
    ensures { result ≡ round_key words.now round }
{
    let a = words[4 * round];
    let b = words[4 * round + 1];
    let c = words[4 * round + 2];
    let d = words[4 * round + 3];
    [
        a[0], a[1], a[2], a[3], b[0], b[1], b[2], b[3], c[0], c[1], c[2], c[3], d[0], d[1], d[2],
        d[3],
    ]
}

fn key_word(key: &[u8; 32], i: usize) -> [u8; 4]
    requires { i < 8 }
    ensures { result ≡ key_word key.now i }
{
    [key[4 * i], key[4 * i + 1], key[4 * i + 2], key[4 * i + 3]]
}

#[tactic(auto, unfolding(seal_model::specs::Aes::next_word))]
fn next_word(words: &[[u8; 4]; 60], i: usize) -> [u8; 4]
    requires after_key { 8 ≤ i }
    requires in_schedule { i < 60 }
    ensures { result ≡ next_word words.now i }
{
    add_words(words[i - 8], key_step(i, words[i - 1]))
}

fn key_step(i: usize, word: [u8; 4]) -> [u8; 4]
    requires after_key { 8 ≤ i }
    requires in_schedule { i < 60 }
    ensures { result ≡ key_step i word }
{
    if i % 8 == 0 {
        let [a, b, c, d] = word;
        add_words(
            substitute_word([b, c, d, a]),
            [round_constant(i / 8), 0, 0, 0],
        )
    } else if i % 8 == 4 {
        substitute_word(word)
    } else {
        word
    }
}

fn round_constant(i: usize) -> u8
    requires from_one { 0 < i }
    requires in_schedule { i < 8 }
    ensures { result ≡ x_power (i - 1) }
{
    1 << (i - 1)
}

fn add_words(left: [u8; 4], right: [u8; 4]) -> [u8; 4]
    ensures { result ≡ xor_bytes left right }
{
    let [a, b, c, d] = left;
    let [e, f, g, h] = right;
    [a ^ e, b ^ f, c ^ g, d ^ h]
}
