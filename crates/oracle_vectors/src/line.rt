// The fields of a line. Every list's lines are read into an array of the same length, so a field
// needs no test of the line's length. A place's bound stands at each reader: a type for it would be made
// and taken apart at each call.
ghost use Rattle.std.specs.Prelude.{◌+◌, ◌≤◌};

use parameters::{Fixes, Model};
use std::array;

// Of a line of `deck`, the longest.
pub(crate) const MOST_BYTES: usize = 830;

pub(crate) type Line = [u8; MOST_BYTES];

// Two decimal digits.
pub(crate) fn pair(line: &Line, start: usize) -> u32
    requires { start + 2 ≤ 830 }
{
    vectors::digit(line[start]) % 10 * 10 + vectors::digit(line[start + 1]) % 10
}

// Eight hexadecimal digits.
pub(crate) fn bits_at(line: &Line, start: usize) -> u32
    requires { start + 8 ≤ 830 }
{
    vectors::hex(&line[start..start + 8])
}

pub(crate) fn float_at(line: &Line, start: usize) -> f32
    requires { start + 8 ≤ 830 }
{
    vectors::float(bits_at(line, start))
}

pub(crate) fn is_at(line: &Line, start: usize, x: f32) -> bool
    requires { start + 8 ≤ 830 }
{
    bits_at(line, start) == vectors::bits(x)
}

// The k-th number of a line that has one letter or digit before its numbers.
pub(crate) fn word(line: &Line, k: usize) -> u32
    requires { k ≤ 91 }
{
    bits_at(line, k * 9 + 2)
}

pub(crate) fn float(line: &Line, k: usize) -> f32
    requires { k ≤ 91 }
{
    float_at(line, k * 9 + 2)
}

// Whether the k-th number is x; any NaN equals any NaN.
pub(crate) fn is(line: &Line, k: usize, x: f32) -> bool
    requires { k ≤ 91 }
{
    is_at(line, k * 9 + 2, x)
}

// The k-th number as a length, at most `most`.
pub(crate) fn length(line: &Line, k: usize, most: usize) -> usize
    requires { k ≤ 91 }
    ensures { result ≤ most }
{
    (word(line, k) as usize).min(most)
}

// The 20 slots of a card, from the number `first` on.
pub(crate) fn slots(line: &Line, first: usize) -> [f32; 20]
    requires { first ≤ 72 }
{
    array::from_fn(|k| float(line, first + k))
}

// By the number that a list has: the fixes that it stands for are its own.
pub(crate) fn model(number: u32) -> Model {
    match number {
        0 => Model::Compatible,
        1 => Model::Corrected,
        2 => Model::Measuring(Fixes {
            curtain_elevation: false,
        }),
        _ => Model::Measuring(Fixes {
            curtain_elevation: true,
        }),
    }
}
