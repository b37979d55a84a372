// What a lookup takes of a card's filled rows: the nearest one outside its range (document 02, C-11).
ghost use Rattle.std.specs.Prelude.{◌≡◌, ◌≤◌};
ghost use Rattle.table.specs.Table.{row_count};
ghost use Rattle.antenna.specs.FilledRows.{from_filled_rows};

use crate::rows::{GainEfficiency, Reading, row_alone};
use crate::tables::Table;

// Below the first MHz the first row alone, from the last MHz up the last row alone.
#[tactic(auto, unfolding(crate::specs::FilledRows::from_filled_rows))]
pub(crate) fn from_filled_rows<T: Table>(
    first: usize,
    last: usize,
    reading: &Reading<T>,
    fmc: f32,
) -> GainEfficiency
    requires { (1 ≤ first) × (first ≤ last) × (last ≤ row_count) }
    ensures { result ≡ from_filled_rows first last (T.numbers reading.now.table) fmc reading.now.at }
{
    let lowest = first as u16;
    if fmc < lowest as f32 {
        return row_alone(reading.row(first), reading.at.xdelta);
    }
    let highest = last as u16;
    if highest as f32 <= fmc {
        return row_alone(reading.row(last), reading.at.xdelta);
    }
    reading.blend()
}
