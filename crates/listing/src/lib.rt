#![tactic(auto)]
// The listing of document 01 section 10: lines are gathered from pieces of any size, each is run on
// the deck, and its text is written.
mod card;
mod gathering;
mod session;
mod writing;

pub use gathering::MOST_HELD;
pub use session::{ROOM, Session, Stepped, finish, start, step};
