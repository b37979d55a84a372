// What holds for a whole row, whatever the azimuth: the phases and the radiation resistance.
ghost use Rattle.std.specs.Prelude.{◌≡◌};
ghost use Rattle.single.specs.Answer.{IsAnswer};
ghost use Rattle.dipoles.specs.Row.{cotangent, xr_of, dipole_row};
ghost use Rattle.dipoles.specs.Row.{dipole_settles, zero_dipole};
ghost use Rattle.integrals.specs.Settled.{unsettled_number, settled_value};

use integrals::{Integrals, Settled, cin_of, integral_pair};

// `cfac` is the cosine of the leg's phase `fac`, `scale` is 120 over the resistance `xr`, and
// `hwave2` twice the height's phase.
#[derive(Clone, Copy)]
pub struct Dipole {
    pub fac: f32,
    pub cfac: f32,
    pub scale: f32,
    pub hwave2: f32,
}

#[tactic(auto, unfolding(crate::specs::Row::cotangent, single::proofs::Literals::round, single::proofs::Literals::of_bits))]
fn cot(x: f32) -> f32
    ensures { result ≡ cotangent x }
{
    1.0 / elementary::tan(x)
}

// `xr`, from the integrals at `fac * 4` and at `fac * 2`.
#[tactic(auto, unfolding(crate::specs::Row::xr_of, single::proofs::Literals::round, single::proofs::Literals::of_bits))]
fn xr_of(fac: f32, at2kl: Integrals, atkl: Integrals) -> f32
    ensures { result ≡ xr_of fac at2kl atkl }
{
    let g = cot(fac);
    let euler = 0.577;
    let cin_kl = cin_of(euler, 2.0 * fac, atkl.ci);
    let cin_2kl = cin_of(euler, 4.0 * fac, at2kl.ci);
    let sin2kl = 1.0;
    30.0 * ((1.0 - g * g) * cin_2kl + 4.0 * g * g * cin_kl + 2.0 * g * (at2kl.si - 2.0 * atkl.si))
        / sin2kl
}

#[tactic(auto, unfolding(single::proofs::Literals::round, single::proofs::Literals::of_bits), using(crate::proofs::Refusal::none_answer, crate::proofs::Refusal::none_number, crate::proofs::Refusal::none_value))]
pub fn dipole_row(fac: f32, hwave: f32) -> Option<Settled<Dipole>>
    ensures { IsAnswer unsettled_number (settled_value zero_dipole) zero_dipole 11 (dipole_row fac hwave) (dipole_settles fac) result }
{
    let pair = integral_pair(fac * 4.0, fac * 2.0)?;
    let (at2kl, atkl) = pair.value;
    Some(pair.with(Dipole {
        fac,
        cfac: elementary::cos(fac),
        scale: 120.0 / xr_of(fac, at2kl, atkl),
        hwave2: 2.0 * hwave,
    }))
}
