#![tactic(auto)]
// The horizontal dipole, type 3, and the Yagi, type 4: document 01 section 4. They share one
// pattern, and differ in nothing but the number.
mod pattern;
mod row;

pub use pattern::dipole_rain;
pub use row::{Dipole, dipole_row};
