// What both rhombics take from the card and the MHz, and the factor of their legs.
ghost use Rattle.std.specs.Prelude.{◌≡◌};
ghost use Rattle.rhombics.specs.Legs.{legs_of, elfac_of};

use angles::{Azimuth, Elevation};
use elementary::SineCosine;

// Two angles have both, `sisum` and `sidif` a sine alone: the Rust's names, so a struct for each angle is no
// plainer.
#[derive(Clone, Copy)]
pub struct Legs {
    pub sb: f32,
    pub cb: f32,
    pub srhi: f32,
    pub crhi: f32,
    pub sisum: f32,
    pub sidif: f32,
    pub fac: f32,
    pub hwave: f32,
}

#[tactic(auto, unfolding(crate::specs::Legs::legs_of))]
pub fn legs_of(phi: f32, azimuth: Azimuth, fac: f32, hwave: f32) -> Legs
    ensures { result ≡ legs_of phi azimuth fac hwave }
{
    let Azimuth { reta, sb, cb } = azimuth;
    let rhi = angles::radians_of(phi);
    let SineCosine { sine, cosine } = elementary::sin_cos(rhi);
    let sisum = elementary::sin(rhi + reta);
    let sidif = elementary::sin(rhi - reta);
    Legs {
        sb,
        cb,
        srhi: sine,
        crhi: cosine,
        sisum,
        sidif,
        fac,
        hwave,
    }
}

#[tactic(auto, unfolding(crate::specs::Legs::u1_of, crate::specs::Legs::u2_of, crate::specs::Legs::elfac_of, single::proofs::Literals::round, single::proofs::Literals::of_bits))]
pub fn elfac(legs: Legs, e: Elevation) -> f32
    ensures { result ≡ elfac_of legs e }
{
    let Legs {
        crhi,
        sisum,
        sidif,
        fac,
        ..
    } = legs;
    let u1 = 1.0 - e.t * sisum;
    let u2 = 1.0 - e.t * sidif;
    crhi * elementary::sin(fac * u1) * elementary::sin(fac * u2) / (u1 * u2)
}
