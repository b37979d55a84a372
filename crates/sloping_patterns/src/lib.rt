#![tactic(auto)]
// The terminated sloping vee, type 7, and the sloping rhombic, type 9: document 01 section 4.
mod direction;
mod rhombic;
mod vee;

pub use rhombic::sloping_rhombic_rain;
pub use vee::vee_rain;
