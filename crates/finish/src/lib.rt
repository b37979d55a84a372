#![tactic(auto)]
// Document 01 section 5: `finish`.
ghost use Rattle.std.specs.Prelude.{◌≡◌};
ghost use Rattle.finish.specs.Finish.{
  decibels_of,
  monopole_efficiency,
  efficiency_of,
  floored,
  ground_of,
};

use parameters::Kind;

// What a sum at or below it becomes, dB, and the efficiency is added to it; type 2 has none.
pub const FLOOR: f32 = -30.0;

// A lookup's GainEfficiency has these fields too: no crate below both has such a thing, and one for it
// alone is no plainer.
#[derive(Clone, Copy)]
pub struct Finished {
    pub gain: f32,
    pub efficiency: f32,
}

// Label 385: into dB.
#[tactic(auto, unfolding(crate::specs::Finish::decibels_of, single::proofs::Literals::round, single::proofs::Literals::of_bits))]
pub fn decibels(rain: f32) -> f32
    ensures { result ≡ decibels_of rain }
{
    10.0 * elementary::log10(elementary::max_small(rain))
}

#[tactic(auto, unfolding(crate::specs::Finish::monopole_efficiency, single::proofs::Literals::round, single::proofs::Literals::of_bits, single::proofs::Literals::neg))]
fn monopole_efficiency(x: f32) -> f32
    ensures { result ≡ monopole_efficiency x }
{
    if x >= 0.35 {
        0.0
    } else {
        -((((6416.702573 * x - 6091.33295) * x + 2179.890548) * x - 364.8173803) * x + 25.64620146)
    }
}

// Label 610: by type. The inverted L has its own.
#[tactic(auto, unfolding(crate::specs::Finish::efficiency_of, single::proofs::Literals::round, single::proofs::Literals::of_bits, single::proofs::Literals::neg))]
pub fn efficiency(kind: Kind, x: f32, eff8: f32) -> f32
    ensures { result ≡ efficiency_of kind x eff8 }
{
    match kind {
        Kind::Rhombic | Kind::SlopingVee | Kind::SlopingRhombic | Kind::InterlacedRhombic => -1.7,
        Kind::Monopole | Kind::LogPeriodic => monopole_efficiency(x),
        Kind::InvertedL => eff8,
        _ => 0.0,
    }
}

// Label 405: efficiency and offset, then the floor, which type 2 alone has not.
#[tactic(auto, unfolding(crate::specs::Finish::floored, single::proofs::Literals::round, single::proofs::Literals::of_bits, single::proofs::Literals::neg))]
pub fn with_floor(kind: Kind, rain: f32, eff: f32, sok: f32) -> f32
    ensures { result ≡ floored kind rain eff sok }
{
    let sum = rain + (eff + sok);
    match kind {
        Kind::Monopole => sum,
        _ if sum <= FLOOR => FLOOR + eff,
        _ => sum,
    }
}

// The path at elevation 0 and below, at the carried height.
#[tactic(auto, unfolding(crate::specs::Finish::ground_of, single::proofs::Literals::round, single::proofs::Literals::of_bits, single::proofs::Literals::neg))]
pub fn ground_gain(kind: Kind, height: f32) -> Finished
    ensures { result ≡ ground_of kind height }
{
    let efficiency = efficiency(kind, height, 0.0);
    Finished {
        gain: with_floor(kind, FLOOR, efficiency, 0.0),
        efficiency,
    }
}
