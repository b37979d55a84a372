#![tactic(auto)]
// Numbers read from columns: document 01 section 10.
mod nearest;
mod reading;

pub use reading::{read_decimal, read_integer};
