#![tactic(auto)]
// What the columns of a table have in common: the elevations of 0 to 90 degrees.
ghost use Rattle.table.specs.Table.{column_count};
ghost use Rattle.deck.specs.Columns.{ColumnsAre};

use column_sines::column_sines;
use table::COLUMNS;

// In radians, with their cosines and sines. Apart: the sines are column_sines' table as it stands,
// and the ground cell reads no delta.
#[derive(Clone, Copy)]
pub(crate) struct Columns {
    pub deltas: [f32; COLUMNS],
    pub cosines: [f32; COLUMNS],
    pub sines: [f32; COLUMNS],
    ghost elevations: { ColumnsAre deltas cosines sines column_count },
}

// The sines are read from a table, the rest is computed.
pub(crate) fn all_columns() -> Columns {
    let mut deltas = [0.0f32; COLUMNS];
    let mut cosines = [0.0f32; COLUMNS];
    let sines = column_sines();
    for d in 0..COLUMNS {
        let delta = angles::radians_of(d as u16 as f32);
        deltas[d] = delta;
        cosines[d] = elementary::cos(delta);
    }
    Columns {
        deltas,
        cosines,
        sines,
    }
}
