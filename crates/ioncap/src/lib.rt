#![tactic(auto)]
// The gain call with its refusals, by value.
mod gain;

pub use gain::{GainCall, gain_of, height_left};
pub use gain_core::Answer;
