#![tactic(auto)]
// The curtain pattern, type 6.
mod bays;
mod card;
mod cell;
mod element_count;
mod elements;
mod floor;
mod gain;
mod pattern;
mod row;

pub use card::{CurtainCard, curtain_card};
pub use cell::curtain_cell;
pub use floor::takes_pattern;
pub use gain::{CurtainGain, curtain_rain, curtain_sok};
pub use pattern::curtain_gain;
pub use row::{CurtainRow, curtain_row};
