// Arithmetic of the field of 256 elements, modulo x^8+x^4+x^3+x^2+1 (0x11D).
ghost use Rattle.std.specs.Prelude.{◌≡◌, bit_xor};
ghost use Rattle.std.specs.Int.NonZero.{non_zero_u8_get};
ghost use Rattle.ec_field.specs.Field.{product, power, IsField};

use std::num::NonZeroU8;

/// The sum of two elements.
pub fn add(a: u8, b: u8) -> u8
    ensures { result ≡ bit_xor a b }
{
    a ^ b
}

/// The product of two elements: that of polynomials, reduced from its top bit down.
pub fn mul(a: u8, b: u8) -> u8
    ensures { result ≡ product a b }
{
    let mut p = 0u16;
    for i in 0..8u32 {
        p ^= u16::from(b >> i & 1) * (u16::from(a) << i);
    }
    for i in (0..7u32).rev() {
        p ^= (p >> (8 + i) & 1) * (0x11D << i);
    }
    p as u8
}

/// The inverse of an element, its power 254.
pub fn inv(a: NonZeroU8) -> NonZeroU8
    ensures { product (non_zero_u8_get a) (non_zero_u8_get result) ≡ 1 }
{
    NonZeroU8::new(pow(a.get(), 254)).unwrap()
}

/// An element to a power; the power 0 of any element is 1.
pub fn pow(a: u8, n: u32) -> u8
    ensures { result ≡ power a n }
{
    let mut result = 1;
    let mut base = a;
    let mut left = n;
    while left > 0 {
        if left % 2 == 1 {
            result = mul(result, base);
        }
        base = mul(base, base);
        left /= 2;
    }
    result
}

/// Bytes are a field: a law for the proofs that stand on it. It does nothing when it runs.
pub fn field_laws()
    ensures { IsField }
{}
