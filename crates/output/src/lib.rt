#![tactic(auto)]
// Numbers written in columns: document 01 section 10.
mod rounding;
mod writing;

pub use rounding::{Hundredths, to_hundredths};
pub use writing::{hundredths_columns, hundredths_field, i, integer_columns};
