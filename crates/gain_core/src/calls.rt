// `iongain` by value, within the limits: at the ground by the carried height, above it without.
ghost use Rattle.std.specs.Prelude.{◌≡◌, not, ◌&&◌};
ghost use Rattle.std.specs.Float.Ieee.{le};
ghost use Rattle.single.specs.Single.{num};
ghost use Rattle.single.specs.Answer.{IsAnswer};
ghost use Rattle.cells.specs.Cell.{blends_with_zenith};
ghost use Rattle.integrals.specs.Settled.{unsettled_number, settled_value};
ghost use Rattle.gain_core.specs.Core.{zenith_gain_for, work_of, work_settles, refused_at};

use angles::Elevation;
use antennas::Antenna;
use cells::{blend, blends_with_zenith, cell_gain, zenith_gain};
use integrals::Settled;
use parameters::Kind;
use rows::Row;

// `height` is the one left.
#[derive(Clone, Copy)]
pub struct Answer {
    pub gain: f32,
    pub efficiency: f32,
    pub height: f32,
}

// What a row's cells blend with; 0 where the type takes none. No Option: cell_gain asks the type again.
#[tactic(auto, unfolding(crate::specs::Core::zenith_gain_for, single::proofs::Literals::round, single::proofs::Literals::of_bits))]
pub fn zenith_gain_for(row: Row) -> f32
    ensures { result ≡ zenith_gain_for row }
{
    if blends_with_zenith(row.kind) {
        return zenith_gain(row);
    }
    0.0
}

// Whether a call takes no row: at the ground, outside types 3 and 4, which take the zenith's gain
// there.
#[tactic(auto, unfolding(single::proofs::Literals::round, single::proofs::Literals::of_bits))]
fn without_row(kind: Kind, delta: f32) -> bool
    ensures { result ≡ (le delta (num 0 1) && not (blends_with_zenith kind)) }
{
    delta <= 0.0 && !blends_with_zenith(kind)
}

// `e` has the elevation's sine and cosine, not the angle `delta`: of the patterns the curtain's alone
// takes it. `row_of` is called here in one place, so that it is compiled into it: a call would hand the
// row over through memory.
pub fn work(
    antenna: Antenna,
    fmc: f32,
    delta: f32,
    e: Elevation,
    height: f32,
) -> Option<Settled<Answer>>
    ensures { IsAnswer unsettled_number (settled_value (refused_at height)) (refused_at height) 11 (work_of antenna fmc delta e height) (work_settles antenna fmc delta) result }
{
    if without_row(antenna.kind, delta) {
        let low = finish::ground_gain(antenna.kind, height);
        return Some(Settled::at_once(Answer {
            gain: low.gain,
            efficiency: low.efficiency,
            height,
        }));
    }
    let settled = rows::row_of(antenna, fmc)?;
    let row = settled.value;
    if delta <= 0.0 {
        let low = finish::ground_gain(antenna.kind, height);
        return Some(settled.with(Answer {
            gain: blend(e, zenith_gain(row), low.gain),
            efficiency: low.efficiency,
            height: row.x,
        }));
    }
    let gain = cell_gain(row, zenith_gain_for(row), antenna.azimuth, delta, e);
    Some(settled.with(Answer {
        gain,
        efficiency: row.eff,
        height: row.x,
    }))
}
