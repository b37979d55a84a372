// What a lookup takes of a row, the blend of two rows, and a row alone.
ghost use Rattle.std.specs.Prelude.{◌≡◌, ◌≤◌, length};
ghost use Rattle.table.specs.Table.{row_count, table_length};
ghost use Rattle.antenna.specs.InTable.{InTable};
ghost use Rattle.antenna.specs.Rows.{row_of, row_alone, blended, blended_at};

use crate::places::Place;
use crate::tables::Table;

#[derive(Clone, Copy)]
pub struct GainEfficiency {
    pub gain: f32,
    pub efficiency: f32,
}

// The gains at a column and at the next one, and the efficiency.
#[derive(Clone, Copy)]
pub(crate) struct Row {
    pub gain: f32,
    pub above: f32,
    pub efficiency: f32,
}

// xfmc of the way from the low row to the high one, xdelta from column to column.
#[tactic(auto, unfolding(crate::specs::Rows::blended))]
fn blend(low: Row, high: Row, xfmc: f32, xdelta: f32) -> GainEfficiency
    ensures { result ≡ blended low high xfmc xdelta }
{
    let rx = low.gain + xfmc * (high.gain - low.gain);
    let ry = low.above + xfmc * (high.above - low.above);
    GainEfficiency {
        gain: rx + xdelta * (ry - rx),
        efficiency: low.efficiency + xfmc * (high.efficiency - low.efficiency),
    }
}

// Between its columns, with nothing done in MHz.
#[tactic(auto, unfolding(crate::specs::Rows::row_alone))]
pub(crate) fn row_alone(row: Row, xdelta: f32) -> GainEfficiency
    ensures { result ≡ row_alone row xdelta }
{
    GainEfficiency {
        gain: row.gain + xdelta * (row.above - row.gain),
        efficiency: row.efficiency,
    }
}

// A place in a table of the right length.
#[derive(Drop)]
pub(crate) struct Reading<T: Table> {
    pub table: T,
    pub at: Place,
    ghost table_len: { length (T.numbers table) ≡ table_length },
    ghost low_in: { InTable at.i at.j at.jp1 },
    ghost high_in: { InTable at.ip1 at.j at.jp1 },
}

impl<T: Table> Reading<T> {
    // The row at m MHz, at the place's columns. m is asked to be a row's number, as in deck and listing: a
    // type for it would be made and taken apart at each row.
    #[tactic(auto, unfolding(crate::specs::Rows::row_of))]
    pub(crate) fn row(&self, m: usize) -> Row
        requires { (1 ≤ m) × (m ≤ row_count) }
        ensures { result ≡ row_of (T.numbers self.now.table) m self.now.at.j self.now.at.jp1 }
    {
        let start = (m - 1) * table::COLUMNS;
        let gain = self.table.number(start + (self.at.j - 1));
        let above = self.table.number(start + (self.at.jp1 - 1));
        let efficiency = self.table.number(table::GAINS + (m - 1));
        Row {
            gain,
            above,
            efficiency,
        }
    }

    // The blend of the place's two rows.
    pub(crate) fn blend(&self) -> GainEfficiency
        ensures { result ≡ blended_at self.now.at (row_of (T.numbers self.now.table)) }
    {
        let low = self.row(self.at.i);
        let high = self.row(self.at.ip1);
        blend(low, high, self.at.xfmc, self.at.xdelta)
    }
}
