#![tactic(auto)]
// A card of document 01 section 8: its plain fields, what is refused of them, and the card as it is
// read.
mod card;
mod fields;

pub use card::{Card, card_antenna, read_card};
pub use fields::{Fields, fields_refusal};
