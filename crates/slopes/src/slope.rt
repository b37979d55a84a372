// What holds for a whole row: the slope of the legs and their angles to the off-azimuth.
ghost use Rattle.std.specs.Prelude.{◌≡◌};
ghost use Rattle.slopes.specs.Slope.{ht_of, rise_of, slope_of, vee_slope, rhombic_slope};

use angles::Azimuth;
use elementary::SineCosine;
use lengths::{LegInWaves, PhaseInWaves};

// `g` and `pp` are the slope's sine and cosine, `fac2` and `hwave2` twice the phases of the leg
// and of the height. Each is taken alone, so that a struct for each angle is no plainer.
#[derive(Clone, Copy)]
pub struct Slope {
    pub g: f32,
    pub pp: f32,
    pub sisum: f32,
    pub sidif: f32,
    pub cosum: f32,
    pub codif: f32,
    pub fac2: f32,
    pub hwave2: f32,
}

// What the legs are at a wavelength. The first extra `aex1` is the other end's height, `height` the
// feed's, and `phi` the card's angle.
#[derive(Clone, Copy)]
pub struct SlopingLegs {
    pub aex1: f32,
    pub wave: f32,
    pub leg: LegInWaves,
    pub height: PhaseInWaves,
    pub phi: f32,
    pub azimuth: Azimuth,
}

// The other end's height in wavelengths, from the first extra: negative in wavelengths, any other
// in metres. Through lengths' Length it would make a phase that nothing takes.
#[tactic(auto, unfolding(crate::specs::Slope::ht_of, single::proofs::Literals::round, single::proofs::Literals::of_bits))]
fn ht_of(aex1: f32, wave: f32) -> f32
    ensures { result ≡ ht_of aex1 wave }
{
    if aex1 < 0.0 {
        return elementary::abs(aex1);
    }
    aex1 / wave
}

impl SlopingLegs {
    // How far the other end stands above the feed, in legs.
    #[tactic(auto, unfolding(crate::specs::Slope::rise_of))]
    fn rise(self) -> f32
        ensures { result ≡ rise_of self }
    {
        (ht_of(self.aex1, self.wave) - self.height.waves) / self.leg.el1
    }

    // By the slope's sine. The legs' angle in their own sloping plane is the Rust's second `rhi`.
    #[tactic(auto, unfolding(crate::specs::Slope::slope_of, single::proofs::Literals::round, single::proofs::Literals::of_bits))]
    fn slope_of(self, g: f32) -> Slope
        ensures { result ≡ slope_of self g }
    {
        let reta = self.azimuth.reta;
        let pp = root::sqrt(1.0 - g * g);
        let e = elementary::sin(angles::radians_of(self.phi));
        let rhi = elementary::asin(e / pp);
        let SineCosine { sine, cosine } = elementary::sin_cos(rhi + reta);
        let sidif = elementary::sin(reta - rhi);
        let codif = elementary::cos(rhi - reta);
        Slope {
            g,
            pp,
            sisum: sine,
            sidif,
            cosum: cosine,
            codif,
            fac2: self.leg.fac * 2.0,
            hwave2: 2.0 * self.height.phase,
        }
    }

    #[tactic(auto, unfolding(crate::specs::Slope::vee_slope))]
    pub fn vee_slope(self) -> Slope
        ensures { result ≡ vee_slope self }
    {
        self.slope_of(self.rise())
    }

    // From end to end lie two legs.
    #[tactic(auto, unfolding(crate::specs::Slope::rhombic_slope, single::proofs::Literals::round, single::proofs::Literals::of_bits))]
    pub fn rhombic_slope(self) -> Slope
        ensures { result ≡ rhombic_slope self }
    {
        self.slope_of(self.rise() * 0.5)
    }
}
