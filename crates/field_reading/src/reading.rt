// Numbers read from columns: right-justified after spaces, an optional minus, digits.
ghost use Rattle.std.specs.Prelude.{◌≡◌, false, ◌≤◌, pos, length};
ghost use Rattle.field_reading.specs.Digits.{spaces_of, digits_of, signed_of};
ghost use Rattle.std.specs.Float.{fin};
ghost use Rattle.field_reading.specs.Integer.{integer_of, integer_number, integer_value};
ghost use Rattle.field_reading.specs.Decimal.{decimal_of, decimal_number, decimal_value};
ghost use Rattle.field_reading.specs.Malformed.{is_integer, is_decimal};
ghost use Rattle.single.specs.Answer.{IsAnswer};

use crate::nearest::ten_thousandths;

// A sign and a magnitude: the sign of -0.5 would be lost with its whole part.
#[derive(Clone, Copy)]
struct Signed {
    minus: bool,
    magnitude: u64,
}

// How many spaces s begins with.
fn spaces(s: &[u8]) -> usize
    ensures value { result ≡ spaces_of s.now }
    ensures within { result ≤ length s.now }
{
    s.iter().take_while(|b| **b == b' ').count()
}

// 1 to `most` digits, and nothing else.
#[tactic(auto, using(crate::proofs::Steps::digits_read))]
fn digits(s: &[u8], most: usize) -> Option<u64>
    requires { most ≤ 18 }
    ensures { result ≡ digits_of most s.now }
{
    if s.is_empty() || most < s.len() {
        return None;
    }
    let mut n: u64 = 0;
    for b in s {
        if !b.is_ascii_digit() {
            return None;
        }
        n = n * 10 + (*b - b'0') as u64;
    }
    Some(n)
}

// Spaces, an optional minus, 1 to `most` digits.
#[tactic(auto, using(crate::proofs::Steps::signs_read))]
fn signed_digits(s: &[u8], most: usize) -> Option<Signed>
    requires { most ≤ 18 }
    ensures { result ≡ signed_of most s.now }
{
    let text = &s[spaces(s)..];
    let minus = text.starts_with(b"-");
    let unsigned = if minus { &text[1..] } else { text };
    let magnitude = digits(unsigned, most)?;
    Some(Signed { minus, magnitude })
}

// An integer field of any width, of at most 18 digits.
#[tactic(auto, using(crate::proofs::Parts::integer_bounds))]
pub fn read_integer(s: &[u8]) -> Option<i64>
    ensures { IsAnswer integer_number integer_value (pos 0) 8 (integer_of s.now) (is_integer s.now) result }
{
    let Signed { minus, magnitude } = signed_digits(s, 18)?;
    let n = magnitude as i64;
    Some(if minus { -n } else { n })
}

// A decimal field of any width: spaces, an optional minus, 1 to 4 digits, a point, 4 digits.
#[tactic(auto, using(crate::proofs::Parts::decimal_bounds))]
pub fn read_decimal(s: &[u8]) -> Option<f32>
    ensures { IsAnswer decimal_number decimal_value (fin false 0 (pos 0)) 8 (decimal_of s.now) (is_decimal s.now) result }
{
    let point = s.len().checked_sub(5)?;
    let Signed { minus, magnitude } = signed_digits(&s[..point], 4)?;
    let decimals = digits(&s[point + 1..], 4)?;
    if s[point] != b'.' {
        return None;
    }
    Some(ten_thousandths(minus, magnitude * 10000 + decimals))
}
