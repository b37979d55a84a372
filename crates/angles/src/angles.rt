// What holds for a whole card, row or column: the wavelength, the off-azimuth, the elevation.
ghost use Rattle.std.specs.Prelude.{◌≡◌};
ghost use Rattle.angles.specs.Angles.{wave_of, radians_of, azimuth_of, elevation_of};

// constants.rs's, one step below the f32 nearest to pi.
pub const PI: f32 = 3.1415926;

// The sine and cosine have the Rust's names, here and in an elevation.
#[derive(Clone, Copy)]
pub struct Azimuth {
    pub reta: f32,
    pub sb: f32,
    pub cb: f32,
}

#[derive(Clone, Copy)]
pub struct Elevation {
    pub t: f32,
    pub q: f32,
    pub r: f32,
    pub s: f32,
}

#[tactic(auto, unfolding(crate::specs::Angles::wave_of, single::proofs::Literals::round, single::proofs::Literals::of_bits))]
pub fn wave_of(fmc: f32) -> f32
    ensures { result ≡ wave_of fmc }
{
    299.7925 / fmc
}

#[tactic(auto, unfolding(crate::specs::Angles::radians_of, single::proofs::Literals::round, single::proofs::Literals::of_bits))]
pub fn radians_of(degrees: f32) -> f32
    ensures { result ≡ radians_of degrees }
{
    degrees * 0.017453293
}

#[tactic(auto, unfolding(crate::specs::Angles::azimuth_of))]
pub fn azimuth_of(toaz: f32) -> Azimuth
    ensures { result ≡ azimuth_of toaz }
{
    let reta = radians_of(toaz);
    let both = elementary::sin_cos(reta);
    Azimuth {
        reta,
        sb: both.sine,
        cb: both.cosine,
    }
}

// From the cosine and the sine, which a filling may take from elsewhere than the elevation.
#[tactic(auto, unfolding(crate::specs::Angles::elevation_of))]
pub fn elevation_of(t: f32, q: f32) -> Elevation
    ensures { result ≡ elevation_of t q }
{
    let r = q * q;
    let s = r * r;
    Elevation { t, q, r, s }
}
