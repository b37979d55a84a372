#![tactic(auto)]
// An antenna as a card or a gain call gives it.
mod antenna;

pub use antenna::{Antenna, antenna_of, antenna_with};
