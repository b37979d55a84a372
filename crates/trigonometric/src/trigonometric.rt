// Sine, cosine and tangent: a reduction by quarter turns, two polynomials, and a choice by quadrant.
ghost use Rattle.std.specs.Prelude.{◌≡◌, true, ◌+◌, ◌%◌, ◌<◌, ◌≤◌, ◌^◌};
ghost use Rattle.std.specs.Float.{binary32};
ghost use Rattle.std.specs.Float.Ieee.{mul};
ghost use Rattle.single.proofs.Magnitude.{Mag};
ghost use Rattle.basic.specs.WholePart.{whole_part};
ghost use Rattle.trigonometric.specs.Trigonometric.{in_range, turns_argument, turns, rest, reduced, quadrant_of};
ghost use Rattle.trigonometric.specs.Trigonometric.{sine_part, cosine_part, sine_at, cosine_at};
ghost use Rattle.trigonometric.specs.Trigonometric.{sine, cosine, sine_cosine_of, tangent};
ghost use Rattle.trigonometric.specs.Turns.{turns_float, quadrant_by, sine_ahead};

#[derive(Clone, Copy)]
pub struct SineCosine {
    pub sine: f32,
    pub cosine: f32,
}

// n modulo 4.
#[derive(Clone, Copy)]
struct Quadrant {
    q: u32,
    ghost below_four: { q < 4 },
}

#[derive(Clone, Copy)]
struct Reduction {
    quadrant: Quadrant,
    rest: f32,
}

// By two comparisons, as its definition: a range's `contains` is no plainer.
#[tactic(auto, unfolding(crate::specs::Trigonometric::in_range, single::proofs::Literals::round, single::proofs::Literals::of_bits))]
fn in_range(x: f32) -> bool
    ensures { result ≡ in_range x }
{
    -1048576.0 <= x && x <= 1048576.0
}

// What n is cut from.
#[tactic(auto, unfolding(crate::specs::Trigonometric::turns_argument, single::proofs::Literals::round, single::proofs::Literals::of_bits))]
fn turns_argument(x: f32) -> f32
    ensures { result ≡ turns_argument x }
{
    let t = x * 0.63661975;
    if x < 0.0 { t - 0.5 } else { t + 0.5 }
}

// The whole part of |t|, by its digits and its exponent's field: with a cast to i64 the sine takes 1.16 of
// the Rust's time, and 0.91 so; along a row 1.74 and 1.16.
#[tactic(auto, using(single::proofs::Booleans::holds, single::proofs::Magnitude::mag_no_nan, basic::proofs::Absolute::bits_absolute, basic::proofs::WholePart::absolute_mag, basic::proofs::WholePart::absolute_whole, basic::proofs::WholePart::whole_below, basic::proofs::WholePart::field_below, basic::proofs::WholePart::whole_none, basic::proofs::WholePart::whole_digits))]
fn whole_part(t: f32) -> u32
    requires { Mag (2 ^ 21) t }
    ensures { (result ≡ whole_part t) × (result ≤ 2 ^ 21) }
{
    let b = f32::to_bits(t) % 0x8000_0000;
    let e = b / 8388608;
    if e < 127 {
        0
    } else {
        (8388608 + b % 8388608) >> (150 - e)
    }
}

// n as an f32, from its magnitude and sign. They go apart to the two below: n as one number would be taken
// apart again.
#[tactic(auto, unfolding(crate::specs::Turns::turns_float), using(single::proofs::Integers::as_i64, single::proofs::Integers::negated_i64))]
fn turns_float(negative: bool, k: u32) -> f32
    requires { k ≤ 2 ^ 21 }
    ensures { result ≡ turns_float negative k }
{
    let m = k as i64;
    let n = if negative { -m } else { m };
    n as f32
}

// From n's magnitude and sign.
#[tactic(auto, unfolding(crate::specs::Turns::quadrant_by))]
fn quadrant_by(negative: bool, k: u32) -> Quadrant
    ensures { result.q ≡ quadrant_by negative k }
{
    let q = k % 4;
    if negative {
        Quadrant { q: (4 - q) % 4 }
    } else {
        Quadrant { q }
    }
}

impl Quadrant {
    // That many quarter turns on.
    fn ahead(self, quarters: u32) -> Quadrant
        requires { quarters < 4 }
        ensures { result.q ≡ (self.q + quarters) % 4 }
    {
        Quadrant {
            q: (self.q + quarters) % 4,
        }
    }
}

#[tactic(auto, unfolding(crate::specs::Trigonometric::rest, single::proofs::Literals::round, single::proofs::Literals::of_bits))]
fn rest_of(x: f32, n: f32) -> f32
    ensures { result ≡ rest x n }
{
    x - n * 1.5703125 - n * 0.00048351288 - n * 0.0000003138557
}

#[tactic(auto, using(crate::proofs::Reduction::argument_mag, crate::proofs::Reduction::reduction_is))]
fn reduce(x: f32) -> Reduction
    requires { in_range x ≡ true }
    ensures { (result.quadrant.q ≡ quadrant_of (turns x)) × (result.rest ≡ reduced x) }
{
    let t = turns_argument(x);
    let k = whole_part(t);
    let negative = t < 0.0;
    let n = turns_float(negative, k);
    let rest = rest_of(x, n);
    let quadrant = quadrant_by(negative, k);
    Reduction { quadrant, rest }
}

#[tactic(auto, unfolding(crate::specs::Trigonometric::sine_part, single::proofs::Literals::round, single::proofs::Literals::of_bits))]
fn sine_part(r: f32, z: f32) -> f32
    ensures { result ≡ sine_part r z }
{
    r + r * z * (-0.16666654611 + z * (0.0083321608736 + z * -0.00019515295891))
}

#[tactic(auto, unfolding(crate::specs::Trigonometric::cosine_part, single::proofs::Literals::round, single::proofs::Literals::of_bits))]
fn cosine_part(z: f32) -> f32
    ensures { result ≡ cosine_part z }
{
    1.0 - z / 2.0 + z * z * (0.041666645683 + z * (-0.0013887316255 + z * 0.000024433157118))
}

// By an array, since a choice between two f32s costs a jump.
#[tactic(auto, unfolding(crate::specs::Trigonometric::sine_at), using(crate::proofs::Reduction::by_quadrant_lem))]
fn sine_at(quadrant: Quadrant, s: f32, c: f32) -> f32
    ensures { result ≡ sine_at quadrant.q s c }
{
    let parts = [s, c, -s, -c];
    parts[quadrant.q as usize]
}

// The cosine is the sine a quarter turn on.
#[tactic(auto, using(crate::proofs::Reduction::ahead))]
fn cosine_at(quadrant: Quadrant, s: f32, c: f32) -> f32
    ensures { result ≡ cosine_at quadrant.q s c }
{
    sine_at(quadrant.ahead(1), s, c)
}

// One of the two parts alone: along a row of a table its choice is foreseen.
#[tactic(auto, using(crate::proofs::Reduction::sine_even, crate::proofs::Reduction::sine_odd))]
fn sine_of(quadrant: Quadrant, r: f32) -> f32
    ensures { result ≡ sine_at quadrant.q (sine_part r (mul binary32 r r)) (cosine_part (mul binary32 r r)) }
{
    let z = r * r;
    let v = if quadrant.q % 2 == 0 {
        sine_part(r, z)
    } else {
        cosine_part(z)
    };
    let parts = [v, -v];
    parts[(quadrant.q / 2) as usize]
}

// The sine that many quarter turns on from x.
#[tactic(auto, unfolding(crate::specs::Turns::sine_ahead), using(crate::proofs::Reduction::in_range_is, crate::proofs::Reduction::out_of_range_is))]
fn sine_ahead(x: f32, quarters: u32) -> f32
    requires { quarters < 4 }
    ensures { result ≡ sine_ahead quarters x }
{
    if in_range(x) {
        let d = reduce(x);
        sine_of(d.quadrant.ahead(quarters), d.rest)
    } else {
        f32::NAN
    }
}

#[tactic(auto, using(crate::proofs::Reduction::sine_ahead_none))]
pub fn sin(x: f32) -> f32
    ensures { result ≡ sine x }
{
    sine_ahead(x, 0)
}

#[tactic(auto, using(crate::proofs::Reduction::sine_ahead_one))]
pub fn cos(x: f32) -> f32
    ensures { result ≡ cosine x }
{
    sine_ahead(x, 1)
}

// Both, from one reduction.
#[tactic(auto, unfolding(crate::specs::Trigonometric::sine, crate::specs::Trigonometric::cosine), using(crate::proofs::Reduction::in_range_is, crate::proofs::Reduction::out_of_range_is))]
pub fn sin_cos(x: f32) -> SineCosine
    ensures { (result.sine ≡ sine x) × (result.cosine ≡ cosine x) × (result ≡ sine_cosine_of x) }
{
    if in_range(x) {
        let d = reduce(x);
        let z = d.rest * d.rest;
        let s = sine_part(d.rest, z);
        let c = cosine_part(z);
        let sine = sine_at(d.quadrant, s, c);
        let cosine = cosine_at(d.quadrant, s, c);
        SineCosine { sine, cosine }
    } else {
        SineCosine {
            sine: f32::NAN,
            cosine: f32::NAN,
        }
    }
}

#[tactic(auto, unfolding(crate::specs::Trigonometric::tangent))]
pub fn tan(x: f32) -> f32
    ensures { result ≡ tangent x }
{
    let both = sin_cos(x);
    both.sine / both.cosine
}
