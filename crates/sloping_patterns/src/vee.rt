// Type 7, the terminated sloping vee.
ghost use Rattle.std.specs.Prelude.{◌≡◌};
ghost use Rattle.sloping_patterns.specs.Vee.{leg_phase_of, leg_phases_of, horizontal_of, vertical_of, vee_rain};

use crate::direction::{Direction, Field, direction_of};
use angles::Elevation;
use elementary::SineCosine;
use reflection::{Ground, reflected_of};
use slopes::Slope;

// Of the phase along a leg or an image: its cosine less 1, and its sine.
#[derive(Clone, Copy)]
pub struct LegPhase {
    pub z: f32,
    pub v: f32,
}

// Of the legs, 1 and 2, and of their images, 3 and 4.
#[derive(Clone, Copy)]
pub struct LegPhases {
    pub p1: LegPhase,
    pub p2: LegPhase,
    pub p3: LegPhase,
    pub p4: LegPhase,
}

#[tactic(auto, unfolding(crate::specs::Vee::leg_phase_of, single::proofs::Literals::round, single::proofs::Literals::of_bits))]
fn leg_phase_of(x: f32) -> LegPhase
    ensures { result ≡ leg_phase_of x }
{
    let SineCosine { sine, cosine } = elementary::sin_cos(x);
    LegPhase {
        z: cosine - 1.0,
        v: sine,
    }
}

#[tactic(auto, unfolding(crate::specs::Vee::leg_phases_of))]
fn leg_phases_of(fac2: f32, d: Direction) -> LegPhases
    ensures { result ≡ leg_phases_of fac2 d }
{
    LegPhases {
        p1: leg_phase_of(fac2 * d.u1),
        p2: leg_phase_of(fac2 * d.u2),
        p3: leg_phase_of(fac2 * d.u3),
        p4: leg_phase_of(fac2 * d.u4),
    }
}

#[tactic(auto, unfolding(crate::specs::Vee::horizontal_of))]
fn horizontal_of(slope: Slope, d: Direction, p: LegPhases, w: SineCosine, ch: f32) -> Field
    ensures { result ≡ horizontal_of slope d p w ch }
{
    let Direction { u1, u2, u3, u4, .. } = d;
    let LegPhases { p1, p2, p3, p4 } = p;
    let w1 = w.cosine;
    let w2 = w.sine;
    let y1 = u1 * slope.sisum;
    let y2 = u2 * slope.sidif;
    let y3 = u3 * slope.sisum;
    let y4 = u4 * slope.sidif;
    let image = ch / (u3 * u4);
    Field {
        re: (y2 * p1.z - y1 * p2.z) / (u1 * u2)
            - image * (y4 * (w1 * p3.z + w2 * p3.v) - y3 * (w1 * p4.z + w2 * p4.v)),
        im: (-y2 * p1.v + y1 * p2.v) / (u1 * u2)
            - image * (y4 * (w2 * p3.z - w1 * p3.v) - y3 * (w2 * p4.z - w1 * p4.v)),
    }
}

#[tactic(auto, unfolding(crate::specs::Vee::vertical_of))]
fn vertical_of(d: Direction, p: LegPhases, w: SineCosine, cv: f32) -> Field
    ensures { result ≡ vertical_of d p w cv }
{
    let Direction { u1, u2, u3, u4, .. } = d;
    let LegPhases { p1, p2, p3, p4 } = p;
    let w3 = w.cosine;
    let w4 = w.sine;
    let uc27 = u2 * d.copsi7;
    let uc18 = u1 * d.copsi8;
    let uc45 = u4 * d.copsi5;
    let uc36 = u3 * d.copsi6;
    let image = cv / (u3 * u4);
    Field {
        re: (p1.z * uc27 - p2.z * uc18) / (u1 * u2)
            - image * (w3 * (p3.z * uc45 - p4.z * uc36) + w4 * (p3.v * uc45 - p4.v * uc36)),
        im: (-p1.v * uc27 + p2.v * uc18) / (u1 * u2)
            - image * (w3 * (-p3.v * uc45 + p4.v * uc36) + w4 * (p3.z * uc45 - p4.z * uc36)),
    }
}

#[tactic(auto, unfolding(crate::specs::Vee::vee_rain, single::proofs::Literals::round, single::proofs::Literals::of_bits))]
pub fn vee_rain(slope: Slope, elevation: Elevation, earth: Ground) -> f32
    ensures { result ≡ vee_rain slope elevation earth }
{
    let d = direction_of(slope, elevation);
    let w = reflected_of(earth.psih, earth.psiv, slope.hwave2, elevation.q);
    let p = leg_phases_of(slope.fac2, d);
    let h = horizontal_of(slope, d, p, w.horizontal, earth.ch);
    let v = vertical_of(d, p, w.vertical, earth.cv);
    let pp = slope.pp;
    let rain = 0.025 * (pp * pp * (h.re * h.re + h.im * h.im) + v.re * v.re + v.im * v.im);
    rain * 2.0
}
