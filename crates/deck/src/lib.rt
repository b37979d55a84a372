#![tactic(auto)]
// The deck of document 01 section 8: it runs cards, and demand 3 holds of them (proofs/Whole.antt).
mod columns;
mod filling;
mod row;
mod run;

pub use deck_state::{Deck, fresh};
pub use run::{CardAnswer, run_card, run_entry, run_malformed};
