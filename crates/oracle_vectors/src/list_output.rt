// The list `output`: fields written and read, and the hundredths of an f32.
ghost use Rattle.std.specs.Prelude.{◌≤◌, length};

use crate::line::{Line, bits_at, float_at, is_at};
use output::Hundredths;

// The width of the field, at most 24.
fn width(line: &Line) -> usize
    ensures { result ≤ 24 }
{
    (vectors::hex(&line[3..5]) as usize).min(24)
}

fn value(line: &Line) -> f32 {
    float_at(line, 6)
}

fn number(line: &Line) -> i64 {
    (bits_at(line, 15) as u64 * 4294967296 + bits_at(line, 23) as u64).cast_signed()
}

// Whether the line's text is that of out.
fn is_text(line: &Line, out: &[u8]) -> bool
    requires { length out.now ≤ 24 }
{
    out == &line[32..32 + out.len()]
}

// A field of the number, or of the f32's hundredths.
fn is_field(line: &Line, out: &mut [u8]) -> bool
    requires { length out.old ≤ 24 }
{
    if line[0] == b'i' {
        output::i(number(line), out);
        return is_text(line, out);
    }
    output::hundredths_field(value(line), out);
    is_text(line, out)
}

fn is_hundredths(line: &Line) -> bool {
    match output::to_hundredths(value(line)) {
        Hundredths::Whole(n) => (line[1] == b'w') & (n == number(line)),
        Hundredths::Over => line[1] == b'o',
        Hundredths::NotANumber => line[1] == b'n',
    }
}

fn is_integer_read(line: &Line) -> bool {
    match field_reading::read_integer(&line[32..32 + width(line)]) {
        Some(n) => (line[1] == b'w') & (n == number(line)),
        None => line[1] == b'm',
    }
}

fn is_decimal_read(line: &Line) -> bool {
    match field_reading::read_decimal(&line[32..32 + width(line)]) {
        Some(x) => (line[1] == b'w') & is_at(line, 6, x),
        None => line[1] == b'm',
    }
}

pub(crate) fn is_equal(line: &Line) -> bool {
    let mut out = [0u8; 24];
    let w = width(line);
    match line[0] {
        b'i' | b'f' => is_field(line, &mut out[..w]),
        b'h' => is_hundredths(line),
        b'n' => is_integer_read(line),
        b'd' => is_decimal_read(line),
        _ => false,
    }
}
