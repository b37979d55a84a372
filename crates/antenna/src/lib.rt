#![tactic(auto)]
// Lookups in a table: document 01 section 9, a card's as document 02 (C-11) has it.
mod filled_rows;
mod lookups;
mod places;
mod rows;
mod tables;

pub use lookups::{card_lookup, gain_lookup, gain_lookup_in_bytes};
pub use rows::GainEfficiency;
