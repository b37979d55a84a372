// f32s as bits and as little-endian bytes.
#![tactic(auto)]

ghost use Rattle.std.specs.Prelude.{◌≡◌};
ghost use Rattle.std.specs.Float.{binary32};
ghost use Rattle.std.specs.Float.Ieee.{of_bits, to_bits};
ghost use Rattle.encoding.specs.Bytes.{bytes_of, float_of};

use std::num;

// The f32 with these bits: every NaN pattern is NaN.
pub fn float(bits: u32) -> f32
    ensures { result ≡ of_bits binary32 bits }
{
    num::f32_from_bits_with_nan(bits)
}

// Its bits: one pattern, 7fc00000, for NaN.
pub fn bits(x: f32) -> u32
    ensures { result ≡ to_bits binary32 x }
{
    num::f32_to_bits_with_nan(x)
}

// Its four bytes, the lowest first.
#[tactic(auto, unfolding(crate::specs::Bytes::bytes_of))]
pub fn bytes_of(x: f32) -> [u8; 4]
    ensures { result ≡ bytes_of x }
{
    bits(x).to_le_bytes()
}

// The f32 of four bytes, the lowest first. Four parameters, as the definition has them: a slice hands
// them out one by one, and an array of them would say no more.
#[tactic(auto, unfolding(crate::specs::Bytes::float_of))]
pub fn float_of(b0: u8, b1: u8, b2: u8, b3: u8) -> f32
    ensures { result ≡ float_of b0 b1 b2 b3 }
{
    float(u32::from_le_bytes([b0, b1, b2, b3]))
}
