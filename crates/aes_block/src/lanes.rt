// Bytes of the field over sixteen lanes, with no table.

ghost use Rattle.std.specs.Prelude.{◌+◌, ◌%◌, ◌^◌, slice_index, bit_xor};
ghost use Rattle.seal_model.specs.Lanes.{HasLanes, where_set};
ghost use Rattle.aes_block.specs.Lanes.{linear};
ghost use Rattle.seal_model.specs.Aes.{mixed_byte, multiply, s_box};

use std::simd::prelude::*;

// The sum of each two lanes, in the field.
#[inline(always)]
fn xor(a: u8x16, b: u8x16) -> u8x16
    ensures { HasLanes 16 result (λ i. bit_xor (slice_index a i) (slice_index b i)) }
{
    a ^ b
}

/// The sum of each lane and a byte, in the field.
#[inline(always)]
pub fn plus(a: u8x16, byte: u8) -> u8x16
    ensures { HasLanes 16 result (λ j. bit_xor (slice_index a j) byte) }
{
    a ^ u8x16::splat(byte)
}

// `b` at the lanes where `a` has the bit, and 0 at the others.
#[inline(always)]
fn where_set(a: u8x16, bit: u8, b: u8x16) -> u8x16
    ensures { HasLanes 16 result (λ i. where_set (slice_index a i) bit (slice_index b i)) }
{
    (a & u8x16::splat(bit))
        .simd_eq(u8x16::splat(bit))
        .select(b, u8x16::splat(0))
}

// The sum of each two lanes as numbers of eight bits.
#[inline(always)]
fn added(a: u8x16, b: u8x16) -> u8x16
    ensures { HasLanes 16 result (λ i. (slice_index a i + slice_index b i) % 2 ^ 8) }
{
    a + b
}

// Twice each lane in the field.
#[inline(always)]
fn double(a: u8x16) -> u8x16
    ensures { HasLanes 16 result (λ i. multiply 2 (slice_index a i)) }
{
    xor(added(a, a), where_set(a, 0x80, u8x16::splat(0x1b)))
}

// One more bit of a product: twice the sum so far, and `b` where `a` has the bit.
#[inline(always)]
fn next(so_far: u8x16, a: u8x16, bit: u8, b: u8x16) -> u8x16
    ensures { HasLanes 16 result (λ j. bit_xor (multiply 2 (slice_index so_far j))
        (where_set (slice_index a j) bit (slice_index b j))) }
{
    xor(double(so_far), where_set(a, bit, b))
}

// The product of each two lanes in the field.
fn multiply(a: u8x16, b: u8x16) -> u8x16
    ensures { HasLanes 16 result (λ j. multiply (slice_index a j) (slice_index b j)) }
{
    let from_7 = next(u8x16::splat(0), a, 128, b);
    let from_6 = next(from_7, a, 64, b);
    let from_5 = next(from_6, a, 32, b);
    let from_4 = next(from_5, a, 16, b);
    let from_3 = next(from_4, a, 8, b);
    let from_2 = next(from_3, a, 4, b);
    let from_1 = next(from_2, a, 2, b);
    next(from_1, a, 1, b)
}

// `image` at the lanes where `x` has the bit, and 0 at the others.
#[inline(always)]
fn image(x: u8x16, bit: u8, image: u8) -> u8x16
    ensures { HasLanes 16 result (λ j. where_set (slice_index x j) bit image) }
{
    where_set(x, bit, u8x16::splat(image))
}

// At each lane the sum of the images of its bits, the lowest first.
#[inline(always)]
fn linear(x: u8x16, images: [u8; 8]) -> u8x16
    ensures { HasLanes 16 result (λ j. linear images (slice_index x j)) }
{
    let [a, b, c, d, e, f, g, h] = images;
    let from_6 = xor(image(x, 64, g), image(x, 128, h));
    let from_5 = xor(image(x, 32, f), from_6);
    let from_4 = xor(image(x, 16, e), from_5);
    let from_3 = xor(image(x, 8, d), from_4);
    let from_2 = xor(image(x, 4, c), from_3);
    let from_1 = xor(image(x, 2, b), from_2);
    xor(image(x, 1, a), from_1)
}

// What squares, fourth and sixteenth powers and the affine map make of 1, x, x ^ 2 and so on. All are linear, the
// affine map but for its constant.
static SQUARES: [u8; 8] = [0x01, 0x04, 0x10, 0x40, 0x1b, 0x6c, 0xab, 0x9a];

static FOURTH_POWERS: [u8; 8] = [0x01, 0x10, 0x1b, 0xab, 0x5e, 0x97, 0xb3, 0xc5];

static SIXTEENTH_POWERS: [u8; 8] = [0x01, 0x5e, 0xe4, 0xe8, 0x4d, 0x91, 0x1d, 0x6c];

static AFFINE_MAP: [u8; 8] = [0x1f, 0x3e, 0x7c, 0xf8, 0xf1, 0xe3, 0xc7, 0x8f];

/// The S-box at each lane: the 254th power, and then the affine map.
pub fn substitute(x: u8x16) -> u8x16
    ensures { HasLanes 16 result (λ j. s_box (slice_index x j)) }
{
    let power_2 = linear(x, SQUARES);
    let power_3 = multiply(power_2, x);
    let power_12 = linear(power_3, FOURTH_POWERS);
    let power_15 = multiply(power_12, power_3);
    let power_240 = linear(power_15, SIXTEENTH_POWERS);
    let power_252 = multiply(power_240, power_12);
    let inverse = multiply(power_252, power_2);
    plus(linear(inverse, AFFINE_MAP), 0x63)
}

/// A byte of MixColumns at each lane, from the bytes of its column.
pub fn mixed(a: u8x16, b: u8x16, c: u8x16, d: u8x16) -> u8x16
    ensures { HasLanes 16 result (λ j. mixed_byte (slice_index a j) (slice_index b j)
        (slice_index c j) (slice_index d j)) }
{
    xor(double(a), xor(xor(double(b), b), xor(c, d)))
}
