#![tactic(auto)]
// The inverted L, type 8: document 01 section 4.
mod inverted_l;

pub use inverted_l::{InvertedL, inverted_l_rain, inverted_l_row};
