#![tactic(auto)]
// A cell above the ground: `iongain2`, and the blend of types 3 and 4.
mod cell;

pub use cell::{blend, blends_with_zenith, cell_gain, zenith_gain};
