// The curtain's pattern beyond the threshold.
ghost use Rattle.std.specs.Prelude.{◌≡◌};
ghost use Rattle.curtain.specs.Pattern.{fac6_of, value_of, gain_of};

use crate::bays::bays_sum;
use crate::card::CurtainCard;
use crate::element_count::at_most_ten;
use crate::elements::{EhEv, element_waves, fields};
use crate::gain::CurtainGain;
use crate::row::CurtainRow;
use angles::{Azimuth, Elevation};
use reflection::Ground;

// What the card, the MHz and the azimuth give: the same at each elevation.
#[derive(Clone, Copy)]
struct Beam {
    card: CurtainCard,
    row: CurtainRow,
    azimuth: Azimuth,
}

impl Beam {
    // What both polarizations have in common.
    #[tactic(auto, unfolding(crate::specs::Pattern::fac6_of, single::proofs::Literals::round, single::proofs::Literals::of_bits))]
    fn fac6(&self, t: f32) -> f32
        ensures { result ≡ fac6_of self.now.card self.now.row self.now.azimuth t }
    {
        let sb = self.azimuth.sb;
        let denom = 1.0 - sb * sb * t * t;
        let sel = elementary::cos(self.row.facsb * t) - self.row.cfac;
        let sz = elementary::sin(self.row.facdx * t);
        let sx = bays_sum(self.card, self.row.fac3, t * sb);
        sel * sx * sz / denom
    }

    #[tactic(auto, unfolding(crate::specs::Pattern::value_of))]
    fn value(&self, elevation: Elevation, earth: Ground) -> f32
        ensures { result ≡ value_of self.now.card self.now.row self.now.azimuth elevation earth }
    {
        let q = elevation.q;
        let fac6 = self.fac6(elevation.t);
        let count = at_most_ten(self.card.m);
        let waves = element_waves(count, q, self.row.h1, self.row.dz);
        let EhEv { eh, ev } = fields(
            fac6 * self.azimuth.cb,
            fac6 * (self.azimuth.sb * q),
            count,
            waves,
            earth,
        );
        root::sqrt(eh * eh + ev * ev)
    }
}

#[tactic(auto, unfolding(crate::specs::Pattern::gain_of, single::proofs::Literals::round, single::proofs::Literals::of_bits))]
pub fn curtain_gain(
    card: CurtainCard,
    row: CurtainRow,
    azimuth: Azimuth,
    elevation: Elevation,
    earth: Ground,
) -> CurtainGain
    ensures { result ≡ gain_of card row azimuth elevation earth }
{
    let beam = Beam { card, row, azimuth };
    let value = beam.value(elevation, earth);
    if value <= 0.00001 {
        return CurtainGain::Weak;
    }
    CurtainGain::Decibels(20.0 * elementary::log10(value))
}
