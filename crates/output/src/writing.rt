// Fields of a line: a number right-justified in the columns handed in, or stars. `Display` has no
// such stars: the digits are written by hand into the caller's bytes, with no heap.
ghost use Rattle.std.specs.Prelude.{◌≡◌, length};
ghost use Rattle.output.specs.Field.{justified, integer_field};
ghost use Rattle.output.specs.Hundredths.{nan_text, hundredths_field};
ghost use Rattle.output.specs.Placed.{Placed};

use crate::rounding::{Hundredths, to_hundredths};

// Writes the digits of n at the end of out, and answers where they begin, if they fit.
#[tactic(auto, using(crate::proofs::Field::digits_written))]
fn digits(n: u64, out: &mut [u8]) -> Option<usize>
    ensures { Placed n out.old out.new result }
{
    let mut rest = n;
    for i in (0..out.len()).rev() {
        if rest < 10 {
            out[i] = b'0' + rest as u8;
            return Some(i);
        }
        out[i] = b'0' + (rest % 10) as u8;
        rest /= 10;
    }
    None
}

// The integer field `i`: v in decimal in the whole of out.
#[tactic(auto, using(crate::proofs::Field::field_written))]
pub fn i(v: i64, out: &mut [u8])
    ensures { out.new ≡ integer_field v (length out.old) }
{
    let Some(start) = digits(v.unsigned_abs(), out) else {
        out.fill(b'*');
        return;
    };
    if v >= 0 {
        out[..start].fill(b' ');
        return;
    }
    if start == 0 {
        out.fill(b'*');
        return;
    }
    let sign = start - 1;
    out[sign] = b'-';
    out[..sign].fill(b' ');
}

// The three letters of a NaN at the end of out.
#[tactic(auto, using(crate::proofs::Printed::nan_printed))]
fn not_a_number(out: &mut [u8])
    ensures { out.new ≡ justified nan_text (length out.old) }
{
    let n = out.len();
    if n < 3 {
        out.fill(b'*');
        return;
    }
    out.fill(b' ');
    out[n - 3..].copy_from_slice(b"NaN");
}

// The hundredths of x in the whole of out.
#[tactic(auto, using(crate::proofs::Printed::cases_printed))]
pub fn hundredths_field(x: f32, out: &mut [u8])
    ensures { out.new ≡ hundredths_field x (length out.old) }
{
    match to_hundredths(x) {
        Hundredths::Whole(n) => i(n, out),
        Hundredths::Over => out.fill(b'*'),
        Hundredths::NotANumber => not_a_number(out),
    }
}

// The integer field of v, in N columns.
pub fn integer_columns<const N: usize>(v: i64) -> [u8; N]
    ensures { result ≡ integer_field v N }
{
    let mut columns = [b' '; N];
    i(v, &mut columns);
    columns
}

// The hundredths of x, in N columns.
pub fn hundredths_columns<const N: usize>(x: f32) -> [u8; N]
    ensures { result ≡ hundredths_field x N }
{
    let mut columns = [b' '; N];
    hundredths_field(x, &mut columns);
    columns
}
