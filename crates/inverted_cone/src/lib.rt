#![tactic(auto)]
// The inverted cone: document 01 section 9.
mod cone;
mod cone_table;

pub use cone::invcon;
