#![tactic(auto)]
// `iongain` within the limits, by value.
mod calls;

pub use calls::{Answer, work, zenith_gain_for};
