// Document 01 section 8: a length is in metres or in wavelengths, said by its kind.
ghost use Rattle.std.specs.Prelude.{◌≡◌};
ghost use Rattle.lengths.specs.Length.{height_slot_of, length_of, leg_of, phase_of};

use parameters::Kind;

#[derive(Clone, Copy)]
pub enum Length {
    Metres(f32),
    Wavelengths(f32),
}

// A leg's phase `fac`, 3.1416 to the wavelength, and its wavelengths `el1`. No PhaseInWaves: the
// formulas have these names, and no other.
#[derive(Clone, Copy)]
pub struct LegInWaves {
    pub fac: f32,
    pub el1: f32,
}

// A height's phase, by the turn to the wavelength, and its wavelengths.
#[derive(Clone, Copy)]
pub struct PhaseInWaves {
    pub phase: f32,
    pub waves: f32,
}

// The turn of the height's phase `hwave`.
pub const HEIGHT_TURN: f32 = 6.2832;

// The turn of types 2 and 5, of their height's phase `a`.
pub const MONOPOLE_TURN: f32 = 6.283185;

// A negative number is in wavelengths, of the opposite sign; any other is in metres.
#[tactic(auto, unfolding(crate::specs::Length::length_of, single::proofs::Literals::round, single::proofs::Literals::of_bits))]
pub fn read_length(v: f32) -> Length
    ensures { result ≡ length_of v }
{
    if v < 0.0 {
        return Length::Wavelengths(-v);
    }
    Length::Metres(v)
}

// Type 2's `anh` stays a gain in the parameters: no length is read from it.
#[tactic(auto, unfolding(single::proofs::Literals::round, single::proofs::Literals::of_bits, crate::specs::Length::height_slot_of))]
pub fn read_height(kind: Kind, anh: f32) -> Length
    ensures { result ≡ height_slot_of kind anh }
{
    match kind {
        Kind::Monopole => Length::Metres(0.0),
        _ => read_length(anh),
    }
}

// Not phase_in_waves: metres are taken with their sign.
#[tactic(auto, unfolding(crate::specs::Length::leg_of, single::proofs::Literals::round, single::proofs::Literals::of_bits))]
pub fn leg_in_waves(length: Length, wave: f32) -> LegInWaves
    ensures { result ≡ leg_of length wave }
{
    match length {
        Length::Metres(el) => LegInWaves {
            fac: 3.1416 * el / wave,
            el1: el / wave,
        },
        Length::Wavelengths(el1) => LegInWaves {
            fac: 3.1416 * el1,
            el1,
        },
    }
}

// Metres not above 0 count as wavelengths, without their sign.
#[tactic(auto, unfolding(crate::specs::Length::phase_of, single::proofs::Literals::round, single::proofs::Literals::of_bits))]
pub fn phase_in_waves(turn: f32, length: Length, wave: f32) -> PhaseInWaves
    ensures { result ≡ phase_of turn length wave }
{
    match length {
        Length::Metres(h) => {
            if h > 0.0 {
                return PhaseInWaves {
                    phase: turn * h / wave,
                    waves: h / wave,
                };
            }
            let waves = elementary::abs(h);
            PhaseInWaves {
                phase: turn * waves,
                waves,
            }
        }
        Length::Wavelengths(waves) => PhaseInWaves {
            phase: turn * waves,
            waves,
        },
    }
}
