// Eight elements of the field of blocks at a time: a lane for each, in two halves of 64 bits.

ghost use Rattle.std.specs.Prelude.{◌≡◌, ℕ, ◌*◌, ◌/◌, ◌%◌, ◌^◌, ◌<◌, ◌++◌, List, Bool};
ghost use Rattle.std.specs.Prelude.{slice_index, bit_and, bit_or, bit_xor, ◌==◌};
ghost use Rattle.seal_model.specs.Lanes.{HasLanes, where_set};
ghost use Rattle.seal_model.specs.Polynomial.{add, bits, scaled, times_x};
ghost use Rattle.seal_model.specs.Gcm.{block_modulus, field_product};
ghost use Rattle.aes_gcm.specs.Lanes.{element, joined, sum_of_eight};

use std::simd::prelude::*;

/// Eight elements. The number of element j has lane j of `high` as its upper half and lane j of `low` as its lower.
#[derive(Clone, Copy)]
pub struct Elements {
    pub high: u64x8,
    pub low: u64x8,
}

impl Elements {
    /// The elements of these numbers.
    pub fn new(numbers: [u128; 8]) -> Elements
        ensures { (j : ℕ) → j < 8 → element result.high result.low j ≡ slice_index numbers j }
    {
        let n = numbers;
        Elements {
            high: u64x8::from_array([
                upper(n[0]),
                upper(n[1]),
                upper(n[2]),
                upper(n[3]),
                upper(n[4]),
                upper(n[5]),
                upper(n[6]),
                upper(n[7]),
            ]),
            low: u64x8::from_array([
                lower(n[0]),
                lower(n[1]),
                lower(n[2]),
                lower(n[3]),
                lower(n[4]),
                lower(n[5]),
                lower(n[6]),
                lower(n[7]),
            ]),
        }
    }

    /// The product of each two elements.
    pub fn times(self, right: Elements) -> Elements
        ensures { (j : ℕ) → j < 8 → bits 128 (element result.high result.low j)
            ≡ field_product (bits 128 (element self.high self.low j)) (bits 128 (element right.high right.low j)) }
    {
        product(self.high, self.low, right)
    }

    /// The sum of all eight.
    pub fn sum(self) -> u128
        ensures { bits 128 result ≡ sum_of_eight (λ j. bits 128 (element self.high self.low j)) }
    {
        let a = self.high.to_array();
        let b = self.low.to_array();
        let from_6 = join(a[6], b[6]) ^ join(a[7], b[7]);
        let from_4 = join(a[4], b[4]) ^ (join(a[5], b[5]) ^ from_6);
        let from_2 = join(a[2], b[2]) ^ (join(a[3], b[3]) ^ from_4);
        join(a[0], b[0]) ^ (join(a[1], b[1]) ^ from_2)
    }
}

// The product of each two elements.
fn product(high: u64x8, low: u64x8, right: Elements) -> Elements
    ensures { (j : ℕ) → j < 8 → bits 128 (element result.high result.low j)
        ≡ field_product (bits 128 (element high low j)) (bits 128 (element right.high right.low j)) }
{
    let none = Elements {
        high: u64x8::splat(0),
        low: u64x8::splat(0),
    };
    times_half(times_half(none, low, right), high, right)
}

// By Horner's rule over the coefficients of half of each left factor: `product` is the product by those before them.
fn times_half(product: Elements, half: u64x8, right: Elements) -> Elements
    ensures { (j : ℕ) → j < 8 → (before : List Bool)
        → bits 128 (element product.high product.low j)
        ≡ field_product before (bits 128 (element right.high right.low j))
        → bits 128 (element result.high result.low j)
        ≡ field_product (bits 64 (slice_index half j) ++ before) (bits 128 (element right.high right.low j)) }
{
    let mut product = product;
    for i in 0..64u32 {
        let next = times_x(product.high, product.low);
        product = plus_where(half, 1 << i, next.high, next.low, right.high, right.low);
    }
    product
}

// The elements, and the others added at the lanes where `half` has the bit.
#[inline(always)]
fn plus_where(
    half: u64x8,
    bit: u64,
    high: u64x8,
    low: u64x8,
    other_high: u64x8,
    other_low: u64x8,
) -> Elements
    ensures { (j : ℕ) → j < 8 → bits 128 (element result.high result.low j)
        ≡ add (bits 128 (element high low j))
        (scaled (bit_and (slice_index half j) bit == bit) (bits 128 (element other_high other_low j))) }
{
    Elements {
        high: xor(high, where_set(half, bit, other_high)),
        low: xor(low, where_set(half, bit, other_low)),
    }
}

// x times each element.
#[inline(always)]
fn times_x(high: u64x8, low: u64x8) -> Elements
    ensures { (j : ℕ) → j < 8
        → bits 128 (element result.high result.low j) ≡ times_x block_modulus (bits 128 (element high low j)) }
{
    Elements {
        high: xor(halved(high), where_set(low, 1, u64x8::splat(MODULUS))),
        low: or(halved(low), lowest_on_top(high)),
    }
}

// The upper half of x ^ 7 + x ^ 2 + x + 1, whose lower half is 0.
const MODULUS: u64 = 0xe100_0000_0000_0000;

#[inline(always)]
fn xor(a: u64x8, b: u64x8) -> u64x8
    ensures { HasLanes 8 result (λ i. bit_xor (slice_index a i) (slice_index b i)) }
{
    a ^ b
}

#[inline(always)]
fn or(a: u64x8, b: u64x8) -> u64x8
    ensures { HasLanes 8 result (λ i. bit_or (slice_index a i) (slice_index b i)) }
{
    a | b
}

#[inline(always)]
fn halved(a: u64x8) -> u64x8
    ensures { HasLanes 8 result (λ i. slice_index a i / 2 ^ 1) }
{
    a >> u64x8::splat(1)
}

// The lowest bit of each lane as its highest, and no other.
#[inline(always)]
fn lowest_on_top(a: u64x8) -> u64x8
    ensures { HasLanes 8 result (λ i. slice_index a i * 2 ^ 63 % 2 ^ 64) }
{
    a << u64x8::splat(63)
}

// `b` at the lanes where `a` has the bit, and 0 at the others.
#[inline(always)]
fn where_set(a: u64x8, bit: u64, b: u64x8) -> u64x8
    ensures { HasLanes 8 result (λ i. where_set (slice_index a i) bit (slice_index b i)) }
{
    (a & u64x8::splat(bit))
        .simd_eq(u64x8::splat(bit))
        .select(b, u64x8::splat(0))
}

fn upper(number: u128) -> u64
    ensures { result ≡ number / 2 ^ 64 }
{
    (number >> 64) as u64
}

fn lower(number: u128) -> u64
    ensures { result ≡ number % 2 ^ 64 }
{
    (number % (1 << 64)) as u64
}

fn join(high: u64, low: u64) -> u128
    ensures { result ≡ joined high low }
{
    ((high as u128) << 64) | low as u128
}
