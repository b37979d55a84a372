// The choice of pattern by type, for a row, and its power in a direction.
ghost use Rattle.std.specs.Prelude.{◌≡◌};
ghost use Rattle.single.specs.Answer.{IsAnswer};
ghost use Rattle.integrals.specs.Settled.{unsettled_number, settled_value};
ghost use Rattle.patterns.specs.Pattern.{pattern_settles};
ghost use Rattle.patterns.specs.declared.pattern.Pattern.TheVariants as P;
ghost use Rattle.patterns.specs.Pattern.{sloping_of, pattern_by, pattern_of, power_of};

use angles::{Azimuth, Elevation};
use antennas::Antenna;
use curtain::{CurtainCard, CurtainRow};
use dipoles::{Dipole, dipole_row};
use integrals::Settled;
use interlaced::Offset;
use inverted_l::{InvertedL, inverted_l_row};
use lengths::{HEIGHT_TURN, LegInWaves, PhaseInWaves};
use parameters::{IoncapParams, Kind};
use reflection::Ground;
use rhombics::Legs;
use slopes::{Slope, SlopingLegs};
use verticals::{Monopole, monopole_row};

// What a row's cells take, by type. Other: a type outside 1 to 10, which has no pattern.
#[derive(Clone, Copy)]
pub enum Pattern {
    Rhombic(Legs),
    Interlaced(Legs, Offset),
    Vee(Slope),
    SlopingRhombic(Slope),
    Curtain(CurtainCard, CurtainRow),
    Wire(Dipole),
    Vertical(Monopole),
    Inverted(InvertedL),
    // Of no type: an answer as any, with no power.
    Other,
}

// The legs of a sloping antenna, in wavelengths.
fn sloping_of(antenna: Antenna, wave: f32, leg: LegInWaves, height: PhaseInWaves) -> SlopingLegs
    ensures { result ≡ sloping_of antenna wave leg height }
{
    SlopingLegs {
        aex1: antenna.params.aex[0],
        wave,
        leg,
        height,
        phi: antenna.params.and,
        azimuth: antenna.azimuth,
    }
}

// What a row takes at a wavelength, by type, of its leg and height in wavelengths.
#[tactic(auto, unfolding(crate::specs::Pattern::dipole_of, crate::specs::Pattern::monopole_for, crate::specs::Pattern::inverted_l_of))]
fn pattern_by(
    antenna: Antenna,
    wave: f32,
    along: LegInWaves,
    above: PhaseInWaves,
) -> Option<Settled<Pattern>>
    ensures { result ≡ pattern_by antenna.kind antenna wave along above }
{
    let IoncapParams { and: phi, aex, .. } = antenna.params;
    let azimuth = antenna.azimuth;
    let leg = antenna.leg;
    let fac = along.fac;
    let hwave = above.phase;
    let sloping = sloping_of(antenna, wave, along, above);
    let pattern = match antenna.kind {
        Kind::Rhombic => Pattern::Rhombic(rhombics::legs_of(phi, azimuth, fac, hwave)),
        Kind::InterlacedRhombic => Pattern::Interlaced(
            rhombics::legs_of(phi, azimuth, fac, hwave),
            interlaced::offset_of(aex[0], aex[1], wave),
        ),
        Kind::InvertedL => {
            return inverted_l_row(fac, hwave).map(|row| row.with(Pattern::Inverted(row.value)));
        }
        Kind::SlopingVee => Pattern::Vee(sloping.vee_slope()),
        Kind::SlopingRhombic => Pattern::SlopingRhombic(sloping.rhombic_slope()),
        Kind::Curtain => Pattern::Curtain(
            curtain::curtain_card(phi, aex[0]),
            curtain::curtain_row(fac, above.waves, aex, azimuth, wave),
        ),
        Kind::Dipole | Kind::Yagi => {
            return dipole_row(fac, hwave).map(|row| row.with(Pattern::Wire(row.value)));
        }
        Kind::Monopole | Kind::LogPeriodic => {
            return monopole_row(leg, wave).map(|row| row.with(Pattern::Vertical(row.value)));
        }
        Kind::Other => Pattern::Other,
    };
    Some(Settled::at_once(pattern))
}

// With the most turns of an integral's series.
pub fn pattern_of(antenna: Antenna, wave: f32) -> Option<Settled<Pattern>>
    ensures { IsAnswer unsettled_number (settled_value P.Other) P.Other 11 (pattern_of antenna wave) (pattern_settles antenna wave) result }
{
    let along = lengths::leg_in_waves(antenna.leg, wave);
    let above = lengths::phase_in_waves(HEIGHT_TURN, antenna.height, wave);
    pattern_by(antenna, wave, along, above)
}

// `rain` before it is taken to dB. The curtain's is in dB from the start: the crate
// `cells` takes it from `curtain`. An elevation and its ground stay two: a struct of them would be
// made for this call alone.
#[tactic(auto, unfolding(crate::specs::Pattern::power_of, single::proofs::Literals::round, single::proofs::Literals::of_bits, single::proofs::Literals::neg))]
pub fn power_of(pattern: Pattern, azimuth: Azimuth, elevation: Elevation, earth: Ground) -> f32
    ensures { result ≡ power_of pattern azimuth elevation earth }
{
    match pattern {
        Pattern::Rhombic(legs) => rhombics::rhombic_rain(legs, elevation, earth),
        Pattern::Interlaced(legs, offset) => {
            interlaced::interlaced_rain(legs, offset, elevation, earth)
        }
        Pattern::Vee(slope) => sloping_patterns::vee_rain(slope, elevation, earth),
        Pattern::SlopingRhombic(slope) => {
            sloping_patterns::sloping_rhombic_rain(slope, elevation, earth)
        }
        Pattern::Wire(row) => dipoles::dipole_rain(row, azimuth, elevation, earth),
        Pattern::Vertical(row) => verticals::monopole_rain(row, elevation, earth),
        Pattern::Inverted(row) => inverted_l::inverted_l_rain(row, azimuth, elevation, earth),
        Pattern::Curtain(_, _) => 0.0,
        Pattern::Other => 0.0,
    }
}
