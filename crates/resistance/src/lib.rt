#![tactic(auto)]
// The radiation resistance of a vertical wire, for types 2, 5 and 8: document 01 section 4.
mod resistance;

pub use resistance::resistance_of;
