#![tactic(auto)]
// The choice of pattern by type, for a row, and its power in a direction.
mod pattern;

pub use pattern::{Pattern, pattern_of, power_of};
