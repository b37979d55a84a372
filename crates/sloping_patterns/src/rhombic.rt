// Type 9, the sloping rhombic.
ghost use Rattle.std.specs.Prelude.{◌≡◌};
ghost use Rattle.sloping_patterns.specs.Rhombic.{leg_pair_of, field_of, sloping_rhombic_rain};

use crate::direction::{Direction, Field, direction_of};
use angles::{Elevation, PI};
use elementary::SineCosine;
use reflection::{Ground, reflected_of};
use slopes::Slope;

// What two legs, or their images, sum to: `a6` and `b6`, or `a7` and `b7`.
#[derive(Clone, Copy)]
pub struct LegPair {
    pub a: f32,
    pub b: f32,
}

#[tactic(auto, unfolding(crate::specs::Rhombic::leg_pair_of, single::proofs::Literals::round, single::proofs::Literals::of_bits))]
fn leg_pair_of(fac2: f32, first: f32, second: f32) -> LegPair
    ensures { result ≡ leg_pair_of fac2 first second }
{
    let sum = elementary::sin_cos(fac2 * (first + second));
    let one = elementary::sin_cos(fac2 * first);
    let other = elementary::sin_cos(fac2 * second);
    LegPair {
        a: 1.0 + sum.cosine - one.cosine - other.cosine,
        b: -sum.sine + one.sine + other.sine,
    }
}

// `f7` and `g7`, or `f8` and `g8`: the legs', and the images' by the reflection's magnitude `c`
// and the sine and cosine of its phase.
#[tactic(auto, unfolding(crate::specs::Rhombic::field_of))]
fn field_of(x: f32, y: f32, c: f32, w: SineCosine, legs: LegPair, images: LegPair) -> Field
    ensures { result ≡ field_of x y c w legs images }
{
    let LegPair { a: a7, b: b7 } = images;
    let SineCosine {
        sine: sinw,
        cosine: cosw,
    } = w;
    Field {
        re: x * legs.a + y * c * (a7 * cosw - b7 * sinw),
        im: x * legs.b + y * c * (a7 * sinw + b7 * cosw),
    }
}

#[tactic(auto, unfolding(crate::specs::Rhombic::sloping_rhombic_rain, single::proofs::Literals::round, single::proofs::Literals::of_bits))]
pub fn sloping_rhombic_rain(slope: Slope, elevation: Elevation, earth: Ground) -> f32
    ensures { result ≡ sloping_rhombic_rain slope elevation earth }
{
    let d = direction_of(slope, elevation);
    let Direction { u1, u2, u3, u4, .. } = d;
    let legs = leg_pair_of(slope.fac2, u1, u2);
    let images = leg_pair_of(slope.fac2, u3, u4);
    let x7 = d.copsi8 / u2 - d.copsi7 / u1;
    let y7 = d.copsi5 / u3 - d.copsi6 / u4;
    let x8 = slope.sidif / u1 - slope.sisum / u2;
    let y8 = slope.sidif / u3 - slope.sisum / u4;
    let w = reflected_of(earth.psih + PI, earth.psiv - PI, slope.hwave2, elevation.q);
    let v = field_of(x7, y7, earth.cv, w.vertical, legs, images);
    let h = field_of(x8, y8, earth.ch, w.horizontal, legs, images);
    let pp = slope.pp;
    0.05 * (v.re * v.re + v.im * v.im + pp * pp * (h.re * h.re + h.im * h.im))
}
