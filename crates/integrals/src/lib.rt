#![tactic(auto)]
// The cosine and sine integrals: document 01 section 3.
mod cin;
mod entry;
mod pair;
mod rational;
mod series;
mod settled;

pub use cin::cin_of;
pub use entry::{cisi, integrals_of};
pub use pair::integral_pair;
pub use rational::Integrals;
pub use settled::{Settled, Turns};
