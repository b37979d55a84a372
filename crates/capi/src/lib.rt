#![tactic(auto)]
// What a Rust host calls through C: document 01 section 9. A slice is a pointer, then a length.
mod answers;
mod entries;
mod gain;

pub use entries::{ioncap_cone, ioncap_lookup};
pub use gain::ioncap_gain;
