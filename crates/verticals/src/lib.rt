#![tactic(auto)]
// The vertical monopole and the log-periodic, types 2 and 5: document 01 section 4.
mod monopole;

pub use monopole::{Monopole, monopole_rain, monopole_row};
