// What the curtain takes from the MHz: its lengths and spacings in wavelengths.
ghost use Rattle.std.specs.Prelude.{◌≡◌};
ghost use Rattle.curtain.specs.Row.{spacing_of, row_of};

use angles::{Azimuth, PI};

// `cfac` is the leg's cosine, `facsb` and `facdx` are what stays of two products when the
// elevation's cosine is taken out of them, `fac3` is the bays' phase.
#[derive(Clone, Copy)]
pub struct CurtainRow {
    pub cfac: f32,
    pub facsb: f32,
    pub facdx: f32,
    pub fac3: f32,
    pub h1: f32,
    pub dz: f32,
}

// A spacing not above 0 is in wavelengths. Not slopes' `ht_of`, which takes 0 as metres; and lengths'
// phase_in_waves would make a phase that nothing takes.
#[tactic(auto, unfolding(crate::specs::Row::spacing_of, single::proofs::Literals::round, single::proofs::Literals::of_bits))]
fn spacing(v: f32, wave: f32) -> f32
    ensures { result ≡ spacing_of v wave }
{
    if v <= 0.0 {
        elementary::abs(v)
    } else {
        v / wave
    }
}

// The last three of aex are the spacings dy, dz and dx.
#[tactic(auto, unfolding(crate::specs::Row::row_of, single::proofs::Literals::round, single::proofs::Literals::of_bits))]
pub fn curtain_row(fac: f32, h1: f32, aex: [f32; 4], azimuth: Azimuth, wave: f32) -> CurtainRow
    ensures { result ≡ row_of fac h1 aex azimuth wave }
{
    let dy = spacing(aex[1], wave);
    let dz = spacing(aex[2], wave);
    let dx = spacing(aex[3], wave);
    CurtainRow {
        cfac: elementary::cos(fac),
        facsb: fac * azimuth.sb,
        facdx: 2.0 * PI * dx * azimuth.cb,
        fac3: PI * dy,
        h1,
        dz,
    }
}
