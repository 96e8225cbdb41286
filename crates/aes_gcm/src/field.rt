// The field of blocks (section 6.3). The highest bit of a number is the coefficient of x ^ 0.

ghost use Rattle.std.specs.Prelude.{◌≡◌, ℕ, ◌-◌, ◌<◌, slice_index};
ghost use Rattle.seal_model.specs.Polynomial.{bits, times_x};
ghost use Rattle.seal_model.specs.Gcm.{block_modulus, field_product, power};
ghost use Rattle.aes_gcm.specs.Hash.{AreMultiples, times_x_power};

use std::marker::Model;

// x ^ 7 + x ^ 2 + x + 1, which is x ^ 128 in the field.
const MODULUS: u128 = 0xe100_0000_0000_0000_0000_0000_0000_0000;

// x ^ 4 times the element of each number below 16.
static RESTS: [u128; 16] = [
    0x0000_0000_0000_0000_0000_0000_0000_0000,
    0x1c20_0000_0000_0000_0000_0000_0000_0000,
    0x3840_0000_0000_0000_0000_0000_0000_0000,
    0x2460_0000_0000_0000_0000_0000_0000_0000,
    0x7080_0000_0000_0000_0000_0000_0000_0000,
    0x6ca0_0000_0000_0000_0000_0000_0000_0000,
    0x48c0_0000_0000_0000_0000_0000_0000_0000,
    0x54e0_0000_0000_0000_0000_0000_0000_0000,
    0xe100_0000_0000_0000_0000_0000_0000_0000,
    0xfd20_0000_0000_0000_0000_0000_0000_0000,
    0xd940_0000_0000_0000_0000_0000_0000_0000,
    0xc560_0000_0000_0000_0000_0000_0000_0000,
    0x9180_0000_0000_0000_0000_0000_0000_0000,
    0x8da0_0000_0000_0000_0000_0000_0000_0000,
    0xa9c0_0000_0000_0000_0000_0000_0000_0000,
    0xb5e0_0000_0000_0000_0000_0000_0000_0000,
];

// x times an element.
fn times_x(element: u128) -> u128
    ensures { bits 128 result ≡ times_x block_modulus (bits 128 element) }
{
    let moved = element >> 1;
    if element & 1 == 1 {
        moved ^ MODULUS
    } else {
        moved
    }
}

// x ^ 4 times an element.
fn times_x4(element: u128) -> u128
    ensures { bits 128 result ≡ times_x_power 4 (bits 128 element) }
{
    (element >> 4) ^ RESTS[(element & 15) as usize]
}

/// An element with its multiples by the sixteen polynomials below x ^ 4, so that products with it go by four
/// coefficients at a time. A contract sees the element.
#[derive(Drop)]
pub struct Factor {
    element: u128,
    multiples: [u128; 16],
}

impl Model for Factor {
    ghost Value = { ℕ };

    ghost view = { λ a. a.element };

    ghost invariant = { λ a. AreMultiples a.multiples (bits 128 a.element) };
}

impl Factor {
    /// The factor of this element.
    pub fn new(element: u128) -> Factor
        ensures { result ≡ element }
    {
        let multiples = multiples(element);
        Factor { element, multiples }
    }

    /// The product of an element and this one.
    pub fn times(&self, left: u128) -> u128
        ensures { bits 128 result ≡ field_product (bits 128 left) (bits 128 self.now) }
    {
        product(left, self.element, &self.multiples)
    }

    /// The powers of this element, from the eighth down to the first.
    pub fn powers(&self) -> [u128; 8]
        ensures { (j : ℕ) → j < 8 → bits 128 (slice_index result j) ≡ power (bits 128 self.now) (8 - j) }
    {
        let power_1 = self.element;
        let power_2 = self.times(power_1);
        let power_3 = self.times(power_2);
        let power_4 = self.times(power_3);
        let power_5 = self.times(power_4);
        let power_6 = self.times(power_5);
        let power_7 = self.times(power_6);
        let power_8 = self.times(power_7);
        [
            power_8, power_7, power_6, power_5, power_4, power_3, power_2, power_1,
        ]
    }
}

// The multiples of an element by the sixteen polynomials below x ^ 4.
fn multiples(h: u128) -> [u128; 16]
    ensures { AreMultiples result (bits 128 h) }
{
    let h1 = times_x(h);
    let h2 = times_x(h1);
    let h3 = times_x(h2);
    [
        0,
        h3,
        h2,
        h2 ^ h3,
        h1,
        h1 ^ h3,
        h1 ^ h2,
        h1 ^ h2 ^ h3,
        h,
        h ^ h3,
        h ^ h2,
        h ^ h2 ^ h3,
        h ^ h1,
        h ^ h1 ^ h3,
        h ^ h1 ^ h2,
        h ^ h1 ^ h2 ^ h3,
    ]
}

// The product of two elements, by Horner's rule over four coefficients of `left` at a time.
fn product(left: u128, right: u128, multiples: &[u128; 16]) -> u128
    requires { AreMultiples multiples.now (bits 128 right) }
    ensures { bits 128 result ≡ field_product (bits 128 left) (bits 128 right) }
{
    let mut product = 0;
    let mut rest = left;
    for _i in 0..32u32 {
        product = times_x4(product) ^ multiples[(rest & 15) as usize];
        rest >>= 4;
    }
    product
}
