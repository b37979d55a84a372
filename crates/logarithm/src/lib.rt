// ln and log10: document 01 section 1.
#![tactic(auto)]

mod logarithm;

pub use logarithm::{ln, log10};
