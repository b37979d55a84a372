// ln, from the digits and the exponent of its argument, and log10.
ghost use Rattle.std.specs.Prelude.{◌≡◌, ◌+◌, ◌<◌, ◌≤◌};
ghost use Rattle.std.specs.Float.{binary32};
ghost use Rattle.std.specs.Float.Ieee.{of_int, minus};
ghost use Rattle.single.proofs.Positive.{normal_units};
ghost use Rattle.logarithm.specs.Logarithm.{ln_at, ln_from, logarithm, logarithm10};

// Digits from 0.70710677 up and below 1.4142135, and the exponent's field that goes with them.
#[derive(Clone, Copy)]
struct Digits {
    m: f32,
    e: u32,
}

#[tactic(auto, unfolding(crate::specs::Logarithm::ln_at, single::proofs::Literals::round, single::proofs::Literals::of_bits))]
fn ln_at(m: f32, e: f32) -> f32
    ensures { result ≡ ln_at m e }
{
    let t = (m - 1.0) / (m + 1.0);
    let w = t * t;
    e * 0.6931472
        + 2.0 * t * (1.0 + w * (0.333333333 + w * (0.2 + w * (0.142857143 + w * 0.111111111))))
}

// a - b, as a float: the difference is exact.
#[tactic(auto, using(single::proofs::Difference::int_difference))]
fn exponent(a: u32, b: u32) -> f32
    requires { (a < 1000) × (b < 1000) }
    ensures { result ≡ of_int binary32 (minus a b) }
{
    a as f32 - b as f32
}

// Of the positive normal f32 with the pattern b, where a field of bias stands for 2 ^ 0. From the
// digits 3,474,675 on, 1.4142135's, they are halved: in whole numbers, since a choice between two
// f32s costs a jump.
#[tactic(auto, using(single::proofs::Positive::normal_units, single::proofs::Sign::finite_bits, crate::proofs::Digits::from_normal, crate::proofs::Digits::below_end, crate::proofs::Digits::from_end))]
fn split(b: u32, bias: u32) -> Digits
    requires { (8388608 ≤ b) × (b < 2139095040) × (bias < 500) }
    ensures { (result.e < 1000) × (ln_at result.m (of_int binary32 (minus result.e bias)) ≡ ln_from (normal_units b) (bias + 23)) }
{
    let t = b % 8388608;
    let half = u32::from(t >= 3474675);
    let m = f32::from_bits(0x3f80_0000 - half * 0x80_0000 + t);
    let e = b / 8388608 + half;
    Digits { m, e }
}

#[tactic(auto, unfolding(crate::specs::Logarithm::ln_at))]
fn ln_normal(b: u32, bias: u32) -> f32
    requires { (8388608 ≤ b) × (b < 2139095040) × (bias < 500) }
    ensures { result ≡ ln_from (normal_units b) (bias + 23) }
{
    let d = split(b, bias);
    let e = exponent(d.e, bias);
    ln_at(d.m, e)
}

#[tactic(auto, unfolding(single::proofs::Literals::of_bits, crate::specs::Logarithm::logarithm), using(single::proofs::Positive::positive_no_nan, single::proofs::Positive::subnormal, single::proofs::Positive::on_normal, single::proofs::Positive::on_top, single::proofs::Positive::on_zero, single::proofs::Positive::on_other, crate::proofs::Digits::scaled))]
pub fn ln(y: f32) -> f32
    ensures { result ≡ logarithm y }
{
    if y > 0.0 {
        let b = f32::to_bits(y);
        if b < 0x7f80_0000 {
            if b < 0x80_0000 {
                ln_normal(f32::to_bits(y * 16777216.0), 151)
            } else {
                ln_normal(b, 127)
            }
        } else {
            y
        }
    } else if y == 0.0 {
        f32::NEG_INFINITY
    } else {
        f32::NAN
    }
}

#[tactic(auto, unfolding(crate::specs::Logarithm::logarithm10, single::proofs::Literals::round, single::proofs::Literals::of_bits))]
pub fn log10(y: f32) -> f32
    ensures { result ≡ logarithm10 y }
{
    ln(y) * 0.4342945
}
