// The terminated rhombic, type 1.
ghost use Rattle.std.specs.Prelude.{◌≡◌};
ghost use Rattle.rhombics.specs.Rhombic.{rhombic_of};

use crate::legs::{Legs, elfac};
use angles::Elevation;
use reflection::Ground;

// `rain`, before it is taken to dB.
#[tactic(auto, unfolding(crate::specs::Rhombic::rhombic_of, elementary::specs::Basic::square, single::proofs::Literals::round, single::proofs::Literals::of_bits))]
pub fn rhombic_rain(legs: Legs, e: Elevation, earth: Ground) -> f32
    ensures { result ≡ rhombic_of legs e earth }
{
    let factor = elfac(legs, e);
    let brk = legs.cb - legs.srhi * e.t;
    let hwave2 = 2.0 * legs.hwave;
    let horizontal = reflection::with_image(earth.ch, earth.psih, hwave2, e.q);
    let vertical = reflection::with_image(earth.cv, earth.psiv, hwave2, e.q);
    let sb = legs.sb;
    3.2 * (factor * factor) * (brk * brk * horizontal + sb * sb * vertical * e.r)
}
