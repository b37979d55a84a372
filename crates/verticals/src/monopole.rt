// Vertical monopole (type 2) and vertical log-periodic (type 5). Both take their leg as the height;
// they differ in what is added to the gain, the height slot (2) or the first extra (5), and in the
// floor, which type 2 has not: both are the caller's.
ghost use Rattle.std.specs.Prelude.{◌≡◌};
ghost use Rattle.single.specs.Answer.{IsAnswer};
ghost use Rattle.verticals.specs.Monopole.{short_resistance, monopole_row, not_zero, monopole_rain};
ghost use Rattle.verticals.specs.Monopole.{monopole_settles, zero_monopole};
ghost use Rattle.integrals.specs.Settled.{unsettled_number, settled_value};

use angles::Elevation;
use integrals::Settled;
use lengths::{Length, MONOPOLE_TURN, phase_in_waves};
use reflection::{Ground, image_power};
use resistance::resistance_of;

// The radiation resistance at 0.2 wavelengths.
const RINTW: f32 = 18.06;

// The height in wavelengths `x`, which the row has and no cell takes, its phase with cosine and sine, by
// the Rust's names, and the radiation resistance.
#[derive(Clone, Copy)]
pub struct Monopole {
    pub x: f32,
    pub hwave: f32,
    pub chwave: f32,
    pub shwave: f32,
    pub ra: f32,
}

// Below 0.2 wavelengths the resistance goes with the leg's square.
#[tactic(auto, unfolding(crate::specs::Monopole::short_resistance, single::proofs::Literals::round, single::proofs::Literals::of_bits))]
fn short_resistance(el1: f32, ra: f32) -> f32
    ensures { result ≡ short_resistance el1 ra }
{
    if el1 < 0.2 {
        400.0 * el1 * el1 * RINTW / 16.0
    } else {
        ra
    }
}

#[tactic(auto, unfolding(single::proofs::Literals::round, single::proofs::Literals::of_bits), using(crate::proofs::Refusal::none_answer, crate::proofs::Refusal::none_number, crate::proofs::Refusal::none_value))]
pub fn monopole_row(leg: Length, wave: f32) -> Option<Settled<Monopole>>
    ensures { IsAnswer unsettled_number (settled_value zero_monopole) zero_monopole 11 (monopole_row leg wave) (monopole_settles leg wave) result }
{
    let height = phase_in_waves(MONOPOLE_TURN, leg, wave);
    let d = 2.0 * height.phase;
    let resistance = resistance_of(d, 2.0 * d)?;
    let el1 = lengths::leg_in_waves(leg, wave).el1;
    let hwave = 6.283 * height.waves;
    let both = elementary::sin_cos(hwave);
    Some(resistance.with(Monopole {
        x: height.waves,
        hwave,
        chwave: both.cosine,
        shwave: both.sine,
        ra: short_resistance(el1, resistance.value),
    }))
}

#[tactic(auto, unfolding(crate::specs::Monopole::not_zero, single::proofs::Literals::round, single::proofs::Literals::of_bits))]
fn not_zero(v: f32) -> f32
    ensures { result ≡ not_zero v }
{
    if v == 0.0 { 0.00000001 } else { v }
}

#[tactic(auto, unfolding(single::proofs::Literals::round, single::proofs::Literals::of_bits, crate::specs::Monopole::monopole_rain))]
pub fn monopole_rain(row: Monopole, elevation: Elevation, earth: Ground) -> f32
    ensures { result ≡ monopole_rain row elevation earth }
{
    let q = elevation.q;
    let both = elementary::sin_cos(row.hwave * q);
    let top = both.cosine - row.chwave;
    let denom = not_zero(top);
    let bprim = elementary::atan((both.sine - q * row.shwave) / denom);
    let factor = elementary::powi2(top / (elevation.t * elementary::cos(bprim)));
    30.0 * (factor * image_power(earth.cv, earth.psiv - 2.0 * bprim)) / row.ra
}
