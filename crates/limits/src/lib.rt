#![tactic(auto)]
// What is refused: the limits of document 01 that a gain call, a lookup and a card have in common.
mod numbers;
mod refusal;

pub use numbers::{MOST, any_outside, is_finite};
pub use refusal::{input_refusal, length_refusal};
