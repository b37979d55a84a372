// What the curtain's pattern answers.
ghost use Rattle.std.specs.Prelude.{◌≡◌};
ghost use Rattle.curtain.specs.Gain.{rain_of, sok_of};

// Floor: near the vertical, where the element slot is added. Weak: nothing is added. Three cases, so
// no Option.
#[derive(Clone, Copy)]
pub enum CurtainGain {
    Floor,
    Weak,
    Decibels(f32),
}

// `rain`, already in dB.
#[tactic(auto, unfolding(crate::specs::Gain::rain_of, single::proofs::Literals::round, single::proofs::Literals::of_bits, single::proofs::Literals::neg))]
pub fn curtain_rain(gain: CurtainGain) -> f32
    ensures { result ≡ rain_of gain }
{
    match gain {
        CurtainGain::Floor | CurtainGain::Weak => finish::FLOOR,
        CurtainGain::Decibels(v) => v,
    }
}

// `sok`, by the element slot as it was handed in.
#[tactic(auto, unfolding(crate::specs::Gain::sok_of, single::proofs::Literals::round, single::proofs::Literals::of_bits))]
pub fn curtain_sok(gain: CurtainGain, slot: f32) -> f32
    ensures { result ≡ sok_of gain slot }
{
    match gain {
        CurtainGain::Floor => slot,
        CurtainGain::Weak | CurtainGain::Decibels(_) => 0.0,
    }
}
