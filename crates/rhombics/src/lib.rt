#![tactic(auto)]
// `iongain2`'s terminated rhombic (type 1), and the legs that it shares with type 10.
mod legs;
mod rhombic;

pub use legs::{Legs, elfac, legs_of};
pub use rhombic::rhombic_rain;
