// The pattern of types 3 and 4. The call straight up takes the same row.
ghost use Rattle.std.specs.Prelude.{◌≡◌};
ghost use Rattle.dipoles.specs.Pattern.{dipole_rain};

use crate::row::Dipole;
use angles::{Azimuth, Elevation};
use reflection::{Ground, with_image};

#[tactic(auto, unfolding(crate::specs::Pattern::dipole_rain, single::proofs::Literals::round, single::proofs::Literals::of_bits))]
pub fn dipole_rain(dipole: Dipole, azimuth: Azimuth, elevation: Elevation, earth: Ground) -> f32
    ensures { result ≡ dipole_rain dipole azimuth elevation earth }
{
    let Dipole {
        fac,
        cfac,
        scale,
        hwave2,
    } = dipole;
    let Azimuth { sb, cb, .. } = azimuth;
    let Elevation { t, q, r, .. } = elevation;
    let ss = sb * sb;
    let c = t * t;
    let sin2kl = 1.0;
    let xkv = with_image(earth.cv, earth.psiv, hwave2, q);
    let xkh = with_image(earth.ch, earth.psih, hwave2, q);
    let xt1 = elementary::cos(fac * sb * t) - cfac;
    let xb1 = 1.0 - ss * c;
    let xt2 = (xkv * ss * r + xkh * cb * cb) / sin2kl;
    let ratio = xt1 / xb1;
    scale * (ratio * ratio) * xt2
}
