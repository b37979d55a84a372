// Inverted L, type 8.
ghost use Rattle.std.specs.Prelude.{◌≡◌};
ghost use Rattle.single.specs.Answer.{IsAnswer};
ghost use Rattle.inverted_l.specs.InvertedL.{inverted_l_settles, zero_inverted_l};
ghost use Rattle.integrals.specs.Settled.{unsettled_number, settled_value};
ghost use Rattle.inverted_l.specs.InvertedL.{eff8_of, inverted_l_row, g2_of, bprim_of, f1_of, inverted_l_rain};

use angles::{Azimuth, Elevation};
use integrals::Settled;
use reflection::{Ground, with_image};
use resistance::resistance_of;

// What a row's cells take: the phases of the leg, twice over, and of the height; cosine and sine of
// the first and of their sum, by the Rust's names; the radiation resistance. Beside these the
// efficiency in dB.
#[derive(Clone, Copy)]
pub struct InvertedL {
    pub fac2: f32,
    pub hwave: f32,
    pub cfac2: f32,
    pub sfac2: f32,
    pub csum: f32,
    pub ssum: f32,
    pub ra: f32,
    pub eff8: f32,
}

// Minus infinity at height 0.
#[tactic(auto, unfolding(crate::specs::InvertedL::eff8_of, single::proofs::Literals::round, single::proofs::Literals::of_bits))]
fn eff8_of(hwave: f32) -> f32
    ensures { result ≡ eff8_of hwave }
{
    let twave = hwave * 0.15916;
    if twave < 0.2 {
        let e = twave * (6.335 + twave * (67.95 - twave * (693.0 - 1600.0 * twave)));
        20.0 * elementary::log10(e)
    } else {
        0.0
    }
}

#[tactic(auto, using(crate::proofs::Refusal::none_answer, crate::proofs::Refusal::none_number, crate::proofs::Refusal::none_value))]
pub fn inverted_l_row(fac: f32, hwave: f32) -> Option<Settled<InvertedL>>
    ensures { IsAnswer unsettled_number (settled_value zero_inverted_l) zero_inverted_l 11 (inverted_l_row fac hwave) (inverted_l_settles hwave) result }
{
    let hac2 = hwave + hwave;
    let resistance = resistance_of(hac2, hac2 + hac2)?;
    let fac2 = fac * 2.0;
    let of_leg = elementary::sin_cos(fac2);
    let of_sum = elementary::sin_cos(hwave + fac2);
    Some(resistance.with(InvertedL {
        fac2,
        hwave,
        cfac2: of_leg.cosine,
        sfac2: of_leg.sine,
        csum: of_sum.cosine,
        ssum: of_sum.sine,
        ra: resistance.value,
        eff8: eff8_of(hwave),
    }))
}

// The leg's part.
#[tactic(auto, unfolding(single::proofs::Literals::round, single::proofs::Literals::of_bits, reflection::specs::Ground::with_image, crate::specs::InvertedL::g2_of), using(crate::proofs::Names::sum_comm))]
fn g2(row: InvertedL, azimuth: Azimuth, elevation: Elevation, earth: Ground) -> f32
    ensures { result ≡ g2_of row azimuth elevation earth }
{
    let u = elevation.t * azimuth.sb;
    let sphip = 1.0 - u * u;
    if sphip == 0.0 {
        return 0.0;
    }
    let hk = with_image(earth.ch, earth.psih, 2.0 * row.hwave, elevation.q);
    let both = elementary::sin_cos(row.fac2 * u);
    let c = 1.0 - both.cosine * row.cfac2 - u * both.sine - 0.5 * row.sfac2 * row.sfac2 * sphip;
    hk * elementary::powi2(2.0 * c * azimuth.cb / sphip)
}

#[tactic(auto, unfolding(crate::specs::InvertedL::bprim_of, single::proofs::Literals::round, single::proofs::Literals::of_bits))]
fn bprim_of(a: f32, b: f32) -> f32
    ensures { result ≡ bprim_of a b }
{
    if a == 0.0 {
        0.0
    } else {
        elementary::atan(b / a)
    }
}

// The mast's part.
#[tactic(auto, unfolding(single::proofs::Literals::round, single::proofs::Literals::of_bits, crate::specs::InvertedL::f1_of))]
fn f1(row: InvertedL, elevation: Elevation, earth: Ground) -> f32
    ensures { result ≡ f1_of row elevation earth }
{
    let t = elevation.t;
    if t == 0.0 {
        return 0.0;
    }
    let q = elevation.q;
    let both = elementary::sin_cos(q * row.hwave);
    let a = row.cfac2 * both.cosine - q * row.sfac2 * both.sine - row.csum;
    let b = q * row.sfac2 * both.cosine + row.cfac2 * both.sine - q * row.ssum;
    let bprim = bprim_of(a, b);
    let cv = earth.cv;
    let turned = elementary::cos(earth.psiv - 2.0 * bprim);
    // Not reflection's image_power: the Rust rounds in this order here.
    let power = 1.0 - 2.0 * cv * turned + cv * cv;
    (a * a + b * b) * power / (t * t)
}

#[tactic(auto, unfolding(single::proofs::Literals::round, single::proofs::Literals::of_bits, crate::specs::InvertedL::inverted_l_rain))]
pub fn inverted_l_rain(row: InvertedL, azimuth: Azimuth, elevation: Elevation, earth: Ground) -> f32
    ensures { result ≡ inverted_l_rain row azimuth elevation earth }
{
    let g2 = g2(row, azimuth, elevation, earth);
    let f1 = f1(row, elevation, earth);
    30.0 * (g2 + f1) / row.ra
}
