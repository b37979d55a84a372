#![tactic(auto)]
// What the reflection and the patterns take of a card, a row and a column: off-azimuth, wavelength,
// elevation.
mod angles;

pub use angles::{Azimuth, Elevation, PI, azimuth_of, elevation_of, radians_of, wave_of};
