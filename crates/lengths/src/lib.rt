#![tactic(auto)]
// A leg or height by kind, metres or wavelengths, and its roles.
mod length;

pub use length::{
    HEIGHT_TURN, LegInWaves, Length, MONOPOLE_TURN, PhaseInWaves, leg_in_waves, phase_in_waves,
    read_height, read_length,
};
