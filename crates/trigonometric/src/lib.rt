// Sine, cosine and tangent: document 01 section 1.
#![tactic(auto)]

mod trigonometric;

pub use trigonometric::{SineCosine, cos, sin, sin_cos, tan};
