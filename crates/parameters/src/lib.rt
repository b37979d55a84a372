#![tactic(auto)]
// What a card's slots and a gain call's numbers mean: the type and its parameters, and the model.
mod kind;
mod model;
mod params;

pub use kind::Kind;
pub use model::{Fixes, Model, curtain_elevation_threshold};
pub use params::{IoncapParams, ioninit};
