// Replaying the oracle's lists: hexadecimal fields, numbers by their bits, the count of lines.
#![tactic(auto)]

mod tally;

ghost use Rattle.std.specs.Prelude.{◌≡◌};
ghost use Rattle.vectors.specs.Line.{digit_of, hex_of, signed_of, same_bits};

pub use encoding::{bits, float};
pub use tally::{MOST_LINES, Tally, counted};

// A hexadecimal digit; any other byte counts as 0.
#[tactic(auto, unfolding(crate::specs::Line::digit_of))]
pub fn digit(b: u8) -> u32
    ensures { result ≡ digit_of b }
{
    match b {
        b'0'..=b'9' => (b - b'0') as u32,
        b'a'..=b'f' => (b - b'a' + 10) as u32,
        _ => 0,
    }
}

// A field of hexadecimal digits, modulo 2 ^ 32.
#[tactic(auto, unfolding(crate::specs::Line::hex_of, crate::specs::Line::hex_to))]
pub fn hex(field: &[u8]) -> u32
    ensures { result ≡ hex_of field.now }
{
    let mut n: u32 = 0;
    for &b in field {
        n = n.wrapping_mul(16).wrapping_add(digit(b));
    }
    n
}

// The i32 with these bits.
#[tactic(auto, unfolding(crate::specs::Line::signed_of))]
pub fn signed(bits: u32) -> i32
    ensures { result ≡ signed_of bits }
{
    bits.cast_signed()
}

// Any NaN is the same as any NaN.
#[tactic(auto, unfolding(crate::specs::Line::same_bits))]
pub fn same(x: f32, y: f32) -> bool
    ensures { result ≡ same_bits x y }
{
    bits(x) == bits(y)
}
