// What a card or a gain call says of its antenna.
ghost use Rattle.std.specs.Prelude.{◌≡◌};
ghost use Rattle.antennas.specs.Antenna.{antenna_of, antenna_with};

use angles::Azimuth;
use lengths::Length;
use parameters::{IoncapParams, Kind, Model};

// The leg and the height by kind, read from the parameters' `anl` and `anh`. Type 2's `anh` stays a
// plain gain.
#[derive(Clone, Copy)]
pub struct Antenna {
    pub kind: Kind,
    pub params: IoncapParams,
    pub leg: Length,
    pub height: Length,
    pub azimuth: Azimuth,
    pub model: Model,
}

// The leg and the height as a card has read them.
pub fn antenna_with(
    kind: Kind,
    toaz: f32,
    params: IoncapParams,
    leg: Length,
    height: Length,
    model: Model,
) -> Antenna
    ensures { result ≡ antenna_with kind toaz params leg height model }
{
    let azimuth = angles::azimuth_of(toaz);
    Antenna {
        kind,
        params,
        leg,
        height,
        azimuth,
        model,
    }
}

#[tactic(auto, unfolding(crate::specs::Antenna::antenna_of))]
pub fn antenna_of(kind: Kind, toaz: f32, params: IoncapParams, model: Model) -> Antenna
    ensures { result ≡ antenna_of kind toaz params model }
{
    let leg = lengths::read_length(params.anl);
    let height = lengths::read_height(kind, params.anh);
    antenna_with(kind, toaz, params, leg, height, model)
}
