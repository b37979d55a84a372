#![tactic(auto)]
// The filling of a row: what holds for it once, then its 91 gains and its efficiency.
ghost use Rattle.std.specs.Prelude.{◌≡◌, ◌≤◌};
ghost use Rattle.refusals.specs.Refusals.{outcome_number, outcome_values};
ghost use Rattle.table.specs.Table.{row_count};
ghost use Rattle.deck.specs.Row.{ground_cell, cell_at, stored_above, RowOfFields};

use crate::columns::Columns;
use angles::{Azimuth, Elevation};
use antennas::Antenna;
use parameters::Kind;
use refusals::Refusal;
use rows::Row;
use table::{COLUMNS, GAINS, Table};

// `zenith` is the row's own gain there, which types 3 and 4 alone take.
#[tactic(auto, unfolding(crate::specs::Row::ground_cell))]
fn ground_cell(kind: Kind, zenith: f32, e: Elevation, height: f32) -> f32
    ensures { result ≡ ground_cell kind zenith e height }
{
    let low = finish::ground_gain(kind, height);
    if cells::blends_with_zenith(kind) {
        return cells::blend(e, zenith, low.gain);
    }
    low.gain
}

// m is asked to be a row's number: a type for it would be made and taken apart at each row.
#[tactic(auto, using(crate::proofs::Elevations::column_read, crate::proofs::Stored::stored_start, crate::proofs::Stored::stored_step))]
fn fill_above(
    row: Row,
    zenith: f32,
    azimuth: Azimuth,
    m: usize,
    columns: &Columns,
    table: &mut Table,
)
    requires { (1 ≤ m) × (m ≤ row_count) }
    ensures { table.new ≡ stored_above (cell_at row zenith azimuth) m 90 table.old }
{
    let base = (m - 1) * COLUMNS;
    for d in 1..COLUMNS {
        let e = angles::elevation_of(columns.cosines[d], columns.sines[d]);
        table[base + d] = cells::cell_gain(row, zenith, azimuth, columns.deltas[d], e);
    }
}

// The height left. The ground cell alone takes the height that the row finds.
#[tactic(auto, using(crate::proofs::Fills::row_unsettled))]
pub(crate) fn fill_row(
    antenna: Antenna,
    m: usize,
    height: f32,
    columns: &Columns,
    table: &mut Table,
) -> Result<f32, Refusal>
    requires { (1 ≤ m) × (m ≤ row_count) }
    ensures { RowOfFields antenna m height table.old table.new (outcome_number result) (outcome_values height result) }
{
    let found = rows::row_of(antenna, m as u16 as f32);
    let row = found.ok_or(Refusal::Unsettled)?.value;
    let zenith = gain_core::zenith_gain_for(row);
    let e = angles::elevation_of(columns.cosines[0], columns.sines[0]);
    table[(m - 1) * COLUMNS] = ground_cell(antenna.kind, zenith, e, height);
    fill_above(row, zenith, antenna.azimuth, m, columns, table);
    table[GAINS + (m - 1)] = row.eff;
    Ok(row.x)
}
