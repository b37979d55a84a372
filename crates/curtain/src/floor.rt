// Near the vertical the curtain takes the floor: tested before any reflection is computed.
ghost use Rattle.std.specs.Prelude.{◌≡◌};
ghost use Rattle.curtain.specs.Floor.{takes_pattern};

const PIO2: f32 = 1.570796326;

// By the model's threshold.
#[tactic(auto, unfolding(crate::specs::Floor::takes_pattern, single::proofs::Literals::round, single::proofs::Literals::of_bits))]
pub fn takes_pattern(delta: f32, threshold: f32) -> bool
    ensures { result ≡ takes_pattern delta threshold }
{
    elementary::abs(delta - PIO2) > threshold
}
