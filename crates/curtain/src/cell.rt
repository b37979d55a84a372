// A cell of the curtain.
ghost use Rattle.std.specs.Prelude.{◌≡◌};
ghost use Rattle.curtain.specs.Cell.{cell_of};

use crate::card::CurtainCard;
use crate::floor::takes_pattern;
use crate::gain::CurtainGain;
use crate::pattern::curtain_gain;
use crate::row::CurtainRow;
use angles::{Azimuth, Elevation};
use reflection::Soil;

// An elevation `delta` with its sine and cosine; the threshold is the model's. No reflection is
// computed near the vertical. `delta` stays beside them: no other pattern takes the angle itself. So do
// card and row: the one holds for a whole card, the other for its MHz alone.
#[tactic(auto, unfolding(crate::specs::Cell::cell_of))]
pub fn curtain_cell(
    card: CurtainCard,
    row: CurtainRow,
    azimuth: Azimuth,
    soil: Soil,
    delta: f32,
    elevation: Elevation,
    threshold: f32,
) -> CurtainGain
    ensures { result ≡ cell_of card row azimuth soil delta elevation threshold }
{
    if takes_pattern(delta, threshold) {
        let ground = reflection::reflect(soil, elevation);
        curtain_gain(card, row, azimuth, elevation, ground)
    } else {
        CurtainGain::Floor
    }
}
