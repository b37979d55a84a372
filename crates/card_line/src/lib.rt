#![tactic(auto)]
// A card's line: document 01 section 10.
mod line;

pub use line::read_line;
