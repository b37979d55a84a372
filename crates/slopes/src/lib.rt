#![tactic(auto)]
// The slopes of the sloping vee, type 7, and the sloping rhombic, type 9: document 01 section 4.
mod slope;

pub use slope::{Slope, SlopingLegs};
