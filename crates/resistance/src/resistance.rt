// The radiation resistance of a vertical wire.
ghost use Rattle.std.specs.Prelude.{◌≡◌};
ghost use Rattle.single.specs.Single.{num};
ghost use Rattle.single.specs.Answer.{IsAnswer};
ghost use Rattle.integrals.specs.Pair.{pair_settles};
ghost use Rattle.integrals.specs.Settled.{unsettled_number, settled_value};
ghost use Rattle.resistance.specs.Resistance.{resistance_from, resistance_of};

use integrals::{Integrals, Settled, cin_of};

#[tactic(auto, unfolding(crate::specs::Resistance::resistance_from, single::proofs::Literals::round, single::proofs::Literals::of_bits))]
fn resistance_from(d: f32, z: f32, dw: Integrals, zw: Integrals) -> f32
    ensures { result ≡ resistance_from d z dw zw }
{
    let both = elementary::sin_cos(d);
    let euler = 0.577215;
    let cin_z = cin_of(euler, z, zw.ci);
    let cin_d = cin_of(euler, d, dw.ci);
    30.0 * (-0.5 * both.cosine * cin_z
        + (1.0 + both.cosine) * cin_d
        + both.sine * (0.5 * zw.si - dw.si))
}

// By the phases d and z, twice and four times the height's; any two are promised for.
#[tactic(auto, using(crate::proofs::Refusal::none_answer, crate::proofs::Refusal::none_number, crate::proofs::Refusal::none_value))]
pub fn resistance_of(d: f32, z: f32) -> Option<Settled<f32>>
    ensures { IsAnswer unsettled_number (settled_value (num 0 1)) (num 0 1) 11 (resistance_of d z) (pair_settles d z) result }
{
    let pair = integrals::integral_pair(d, z)?;
    let (dw, zw) = pair.value;
    Some(pair.with(resistance_from(d, z, dw, zw)))
}
