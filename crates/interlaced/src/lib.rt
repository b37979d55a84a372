#![tactic(auto)]
// `iongain2`'s terminated interlaced rhombic (type 10).
mod interlaced;

pub use interlaced::{Offset, interlaced_rain, offset_of};
