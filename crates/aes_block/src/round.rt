// The steps of a round on one block (FIPS 197, section 5.1), with a block's bytes column by column.

ghost use Rattle.std.specs.Prelude.{◌≡◌, List, [], ◌∷◌, ◌++◌};
ghost use Rattle.seal_model.specs.Bytes.{xor_bytes};
ghost use Rattle.seal_model.specs.Aes.{sub_bytes, shift_rows, mix_columns, mixed_byte, multiply};

use crate::s_box::substitute;

/// Twice a byte in the field.
pub fn double(byte: u8) -> u8
    ensures { result ≡ multiply 2 byte }
{
    (byte << 1) ^ ((byte >> 7) * 0x1b)
}

/// Three times a byte in the field.
fn triple(byte: u8) -> u8
    ensures { result ≡ multiply 3 byte }
{
    double(byte) ^ byte
}

/// SubBytes.
pub fn substitute_bytes(mut block: [u8; 16]) -> [u8; 16]
    ensures { result ≡ sub_bytes block }
{
    for byte in block.iter_mut() {
        *byte = substitute(*byte);
    }
    block
}

/// ShiftRows.
#[tactic(auto, unfolding(seal_model::specs::Aes::shift_rows))]
pub fn shift(block: [u8; 16]) -> [u8; 16]
    ensures { result ≡ shift_rows block }
{
    let b = block;
    [
        b[0], b[5], b[10], b[15], b[4], b[9], b[14], b[3], b[8], b[13], b[2], b[7], b[12], b[1],
        b[6], b[11],
    ]
}

fn mix_column(column: [u8; 4]) -> [u8; 4]
    ensures { (a b c d : _) → column ≡ a ∷ b ∷ c ∷ d ∷ []
        → result ≡ mixed_byte a b c d ∷ mixed_byte b c d a ∷ mixed_byte c d a b ∷ mixed_byte d a b c ∷ [] }
{
    let [a, b, c, d] = column;
    [
        double(a) ^ (triple(b) ^ (c ^ d)),
        double(b) ^ (triple(c) ^ (d ^ a)),
        double(c) ^ (triple(d) ^ (a ^ b)),
        double(d) ^ (triple(a) ^ (b ^ c)),
    ]
}

/// MixColumns.
#[tactic(auto, unfolding(seal_model::specs::Aes::mix_columns))]
pub fn mix(block: [u8; 16]) -> [u8; 16]
    ensures { result ≡ mix_columns block }
{
    let b = block;
    let [b0, b1, b2, b3] = mix_column([b[0], b[1], b[2], b[3]]);
    let [b4, b5, b6, b7] = mix_column([b[4], b[5], b[6], b[7]]);
    let [b8, b9, b10, b11] = mix_column([b[8], b[9], b[10], b[11]]);
    let [b12, b13, b14, b15] = mix_column([b[12], b[13], b[14], b[15]]);
    [
        b0, b1, b2, b3, b4, b5, b6, b7, b8, b9, b10, b11, b12, b13, b14, b15,
    ]
}

/// The sum of two blocks.
pub fn add(mut block: [u8; 16], other: [u8; 16]) -> [u8; 16]
    ensures { result ≡ xor_bytes block other }
{
    for i in 0..16 {
        block[i] ^= other[i];
    }
    block
}
