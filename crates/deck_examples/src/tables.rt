#![tactic(auto)]
// Tables before and after a card.

// What each number is before a card.
pub(crate) const BEFORE: f32 = 1.0;

// How many numbers of the table are x.
pub(crate) fn count(table: &[f32], x: f32) -> u64 {
    table.iter().filter(|y| vectors::same(**y, x)).count() as u64
}
