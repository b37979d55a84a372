#![tactic(auto)]
// The ground's reflection: `iongain2` down to the match.
mod ground;
mod image;
mod soil;

pub use ground::{Ground, reflect};
pub use image::{ReflectedPhase, image_power, reflected_of, with_image};
pub use soil::{Soil, soil_of};
