#![tactic(auto)]
// The table of document 01 section 7: 30 rows (1 to 30 MHz) of 91 gains (0 to 90 degrees), then 30
// efficiencies.
ghost use Rattle.std.specs.Prelude.{◌≡◌};
ghost use Rattle.table.specs.Range.{is_range};
ghost use Rattle.table.specs.Table.{is_table, filled_with, refused_table};

pub const ROWS: usize = 30;

pub const COLUMNS: usize = 91;

// Gains come before the efficiencies.
pub const GAINS: usize = 2730;

pub const TABLE_LENGTH: usize = 2760;

pub type Table = [f32; TABLE_LENGTH];

// The first and the last row, as a card says them.
const LEAST_MHZ: i32 = 1;

const MOST_MHZ: i32 = 30;

#[tactic(auto, unfolding(crate::specs::Table::is_table))]
pub fn is_table(table: &[f32]) -> bool
    ensures { result ≡ is_table table.now }
{
    table.len() == TABLE_LENGTH
}

// Every number becomes x: the library's, for those who name tables alone.
#[tactic(auto, unfolding(crate::specs::Table::filled_with))]
pub fn fill(table: &mut [f32], x: f32)
    ensures { table.new ≡ filled_with table.old x }
{
    table.fill(x);
}

// A refused card's table: all zeros, or untouched if its length is wrong.
#[tactic(auto, unfolding(single::proofs::Literals::round, single::proofs::Literals::of_bits, crate::specs::Table::is_table, crate::specs::Table::cleared, crate::specs::Table::refused_table))]
pub fn clear_refused(table: &mut [f32])
    ensures { table.new ≡ refused_table table.old }
{
    if is_table(table) {
        table.fill(0.0);
    }
}

// 1 to 30 MHz, the first not above the last: two numbers, since any two may be handed in.
#[tactic(auto, unfolding(crate::specs::Range::is_range))]
pub fn is_range(first: i32, last: i32) -> bool
    ensures { result ≡ is_range first last }
{
    LEAST_MHZ <= first && first <= last && last <= MOST_MHZ
}
