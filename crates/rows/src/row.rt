// What holds for a row: everything that the antenna and the MHz give.
ghost use Rattle.std.specs.Prelude.{◌≡◌};
ghost use Rattle.single.specs.Answer.{IsAnswer};
ghost use Rattle.angles.specs.Angles.{wave_of};
ghost use Rattle.integrals.specs.Settled.{unsettled_number, settled_value};
ghost use Rattle.patterns.specs.Pattern.{pattern_settles};
ghost use Rattle.rows.specs.Row.{sok_for, height_for, eff8_for, row_of, zero_row};

use antennas::Antenna;
use integrals::Settled;
use lengths::{Length, MONOPOLE_TURN};
use parameters::{IoncapParams, Kind};
use patterns::{Pattern, pattern_of};
use reflection::Soil;

// `x` is the height that its cells leave, `sok` the offset (the curtain adds it at the floor alone),
// `threshold` how near to the vertical that floor begins.
#[derive(Clone, Copy)]
pub struct Row {
    pub kind: Kind,
    pub pattern: Pattern,
    pub soil: Soil,
    pub eff: f32,
    pub sok: f32,
    pub x: f32,
    pub threshold: f32,
}

// `sok`.
#[tactic(auto, unfolding(crate::specs::Row::sok_for, single::proofs::Literals::round, single::proofs::Literals::of_bits))]
fn sok_for(kind: Kind, params: IoncapParams) -> f32
    ensures { result ≡ sok_for kind params }
{
    match kind {
        Kind::Monopole => params.anh,
        Kind::SlopingVee | Kind::SlopingRhombic | Kind::InterlacedRhombic => 0.0,
        _ => params.aex[0],
    }
}

// `x`.
#[tactic(auto, unfolding(crate::specs::Row::height_for, single::proofs::Literals::round, single::proofs::Literals::of_bits))]
fn height_for(kind: Kind, leg: Length, wave: f32) -> f32
    ensures { result ≡ height_for kind leg wave }
{
    match kind {
        Kind::Monopole | Kind::LogPeriodic => {
            lengths::phase_in_waves(MONOPOLE_TURN, leg, wave).waves
        }
        _ => 1.0,
    }
}

// `eff8`.
#[tactic(auto, unfolding(crate::specs::Row::eff8_for, single::proofs::Literals::round, single::proofs::Literals::of_bits))]
fn eff8_for(pattern: Pattern) -> f32
    ensures { result ≡ eff8_for pattern }
{
    match pattern {
        Pattern::Inverted(row) => row.eff8,
        _ => 0.0,
    }
}

// With the most turns of an integral's series.
#[tactic(auto, using(crate::proofs::Unsettled::none_answer, crate::proofs::Unsettled::none_number, crate::proofs::Unsettled::none_value))]
pub fn row_of(antenna: Antenna, fmc: f32) -> Option<Settled<Row>>
    ensures { IsAnswer unsettled_number (settled_value zero_row) zero_row 11 (row_of antenna fmc) (pattern_settles antenna (wave_of fmc)) result }
{
    let wave = angles::wave_of(fmc);
    let pattern = pattern_of(antenna, wave)?;
    let Antenna {
        kind,
        params,
        leg,
        model,
        ..
    } = antenna;
    let x = height_for(kind, leg, wave);
    let eff8 = eff8_for(pattern.value);
    let row = Row {
        kind,
        pattern: pattern.value,
        soil: reflection::soil_of(params.asig, params.aeps, fmc),
        eff: finish::efficiency(kind, x, eff8),
        sok: sok_for(kind, params),
        x,
        threshold: parameters::curtain_elevation_threshold(model),
    };
    Some(pattern.with(row))
}
