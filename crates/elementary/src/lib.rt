// The elementary functions of document 01 section 1, from the crates that have them: f32, one
// rounding per operation, in the order written there.
#![tactic(auto)]

pub use arctangent::{asin, atan};
pub use basic::{abs, cut, is_negative, max_small, powi2, powi4};
pub use logarithm::{ln, log10};
pub use trigonometric::{SineCosine, cos, sin, sin_cos, tan};
