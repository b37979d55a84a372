// The ground's reflection coefficients at an elevation.
ghost use Rattle.std.specs.Prelude.{◌≡◌};
ghost use Rattle.reflection.specs.Ground.{
  refraction_of,
  psiv_of,
  vertical_of,
  horizontal_of,
  without_small_difference,
  reflect_of,
};

use crate::soil::Soil;
use angles::Elevation;
use elementary::SineCosine;

// Magnitudes ch and cv, phases psih and psiv: the Rust's names, by which every formula takes them, and
// so not two coefficients.
#[derive(Clone, Copy)]
pub struct Ground {
    pub ch: f32,
    pub cv: f32,
    pub psih: f32,
    pub psiv: f32,
}

// er - cos^2 - jx: its magnitude rho, the root of that, and its phase alpha.
#[derive(Clone, Copy)]
struct Refraction {
    rho: f32,
    rho12: f32,
    alpha: f32,
}

// A reflection coefficient.
#[derive(Clone, Copy)]
struct Coefficient {
    magnitude: f32,
    phase: f32,
}

#[tactic(auto, unfolding(crate::specs::Ground::refraction_of))]
fn refraction_of(soil: Soil, e: Elevation) -> Refraction
    ensures { result ≡ refraction_of soil e }
{
    let Soil { er, x, .. } = soil;
    let ert = er - e.t * e.t;
    let rho = root::sqrt(ert * ert + x * x);
    let rho12 = root::sqrt(rho);
    let alpha = -elementary::atan(x / ert);
    Refraction { rho, rho12, alpha }
}

#[tactic(auto, unfolding(crate::specs::Ground::psiv_of, single::proofs::Literals::round, single::proofs::Literals::of_bits))]
fn psiv(a: f32, b: f32) -> f32
    ensures { result ≡ psiv_of a b }
{
    if b < 0.0 {
        return elementary::atan(a / b) + 3.141593;
    }
    if b == 0.0 {
        if a < 0.0 {
            return -1.570796;
        }
        if a == 0.0 {
            return 0.0;
        }
        return 1.570796;
    }
    elementary::atan(a / b)
}

#[tactic(auto, unfolding(single::proofs::Literals::round, single::proofs::Literals::of_bits, crate::specs::Ground::cv_of, crate::specs::Ground::a_of, crate::specs::Ground::b_of, crate::specs::Ground::vertical_of))]
fn vertical(soil: Soil, e: Elevation, w: Refraction) -> Coefficient
    ensures { result ≡ vertical_of soil e w }
{
    let Soil { u, v, asxv, .. } = soil;
    let Elevation { q, r, s, .. } = e;
    let Refraction { rho, rho12, alpha } = w;
    let double = elementary::cos(alpha + 2.0 * asxv);
    let SineCosine { sine, cosine } = elementary::sin_cos(alpha * 0.5 + asxv);
    let numerator = root::sqrt(rho * rho + u * u * s - 2.0 * rho * u * r * double);
    let magnitude = numerator / (rho + u * r + 2.0 * rho12 * v * q * cosine);
    let a = 2.0 * rho12 * q * v * sine;
    let b = rho - u * r;
    let phase = psiv(a, b);
    Coefficient { magnitude, phase }
}

#[tactic(auto, unfolding(crate::specs::Ground::psih_of, crate::specs::Ground::ch_of, crate::specs::Ground::horizontal_of, single::proofs::Literals::round, single::proofs::Literals::of_bits))]
fn horizontal(e: Elevation, w: Refraction) -> Coefficient
    ensures { result ≡ horizontal_of e w }
{
    let Elevation { q, r, s, .. } = e;
    let Refraction { rho, rho12, alpha } = w;
    let SineCosine { sine, cosine } = elementary::sin_cos(alpha * 0.5);
    let phase = elementary::atan(2.0 * rho12 * q * sine / (rho - r));
    let numerator = root::sqrt(rho * rho + s - 2.0 * rho * r * elementary::cos(alpha));
    let magnitude = numerator / (rho + r + 2.0 * rho12 * q * cosine);
    Coefficient { magnitude, phase }
}

// cv, or ch where they differ by 0.001 or less.
#[tactic(auto, unfolding(crate::specs::Ground::without_small_difference, single::proofs::Literals::round, single::proofs::Literals::of_bits))]
fn without_small_difference(cv: f32, ch: f32) -> f32
    ensures { result ≡ without_small_difference cv ch }
{
    if elementary::abs(cv - ch) <= 0.001 {
        return ch;
    }
    cv
}

#[tactic(auto, unfolding(crate::specs::Ground::reflect_of))]
pub fn reflect(soil: Soil, e: Elevation) -> Ground
    ensures { result ≡ reflect_of soil e }
{
    let w = refraction_of(soil, e);
    let vertical = vertical(soil, e, w);
    let horizontal = horizontal(e, w);
    let ch = horizontal.magnitude;
    let cv = without_small_difference(vertical.magnitude, ch);
    Ground {
        ch,
        cv,
        psih: horizontal.phase,
        psiv: vertical.phase,
    }
}
