#![tactic(auto)]
// What holds for a row: its antenna's pattern, soil, efficiency, offset and height.
mod row;

pub use row::{Row, row_of};
