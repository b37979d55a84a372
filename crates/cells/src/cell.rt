// A cell above the ground: `iongain2`, and what `iongain` makes of it for types 3 and 4.
ghost use Rattle.std.specs.Prelude.{◌≡◌};
ghost use Rattle.cells.specs.Cell.{power_cell, curtain_cell, cell_of, zenith_gain, blend_of, blends_with_zenith, cell_gain};

use angles::{Azimuth, Elevation};
use curtain::{CurtainCard, CurtainRow};
use elementary::SineCosine;
use parameters::Kind;
use patterns::Pattern;
use rows::Row;

#[tactic(auto, unfolding(crate::specs::Cell::power_cell))]
fn power_cell(row: Row, azimuth: Azimuth, e: Elevation) -> f32
    ensures { result ≡ power_cell row azimuth e }
{
    let Row {
        kind,
        pattern,
        soil,
        eff,
        sok,
        ..
    } = row;
    let ground = reflection::reflect(soil, e);
    let rain = patterns::power_of(pattern, azimuth, e, ground);
    finish::with_floor(kind, finish::decibels(rain), eff, sok)
}

// The floor is tested before the reflection is computed.
#[tactic(auto, unfolding(crate::specs::Cell::curtain_cell))]
fn curtain_cell(
    card: CurtainCard,
    spacings: CurtainRow,
    row: Row,
    azimuth: Azimuth,
    delta: f32,
    e: Elevation,
) -> f32
    ensures { result ≡ curtain_cell card spacings row azimuth delta e }
{
    let Row {
        kind,
        soil,
        eff,
        sok,
        threshold,
        ..
    } = row;
    let gain = curtain::curtain_cell(card, spacings, azimuth, soil, delta, e, threshold);
    let rain = curtain::curtain_rain(gain);
    let added = curtain::curtain_sok(gain, sok);
    finish::with_floor(kind, rain, eff, added)
}

// The elevation comes as four numbers: as a struct it would be read whole from memory right after its
// fields were written there one by one, and the processor waits for that.
#[tactic(auto, unfolding(crate::specs::Cell::cell_of))]
fn cell(row: Row, azimuth: Azimuth, delta: f32, t: f32, q: f32, r: f32, s: f32) -> f32
    ensures { result ≡ cell_of row azimuth delta (record { t = t; q = q; r = r; s = s }) }
{
    let e = Elevation { t, q, r, s };
    match row.pattern {
        Pattern::Curtain(card, spacings) => curtain_cell(card, spacings, row, azimuth, delta, e),
        _ => power_cell(row, azimuth, e),
    }
}

// Types 3 and 4 look straight up, at 1.570796 and azimuth 0: the same for a whole row.
#[tactic(auto, unfolding(crate::specs::Cell::zenith_gain, single::proofs::Literals::round, single::proofs::Literals::of_bits))]
pub fn zenith_gain(row: Row) -> f32
    ensures { result ≡ zenith_gain row }
{
    let SineCosine { sine, cosine } = elementary::sin_cos(1.570796);
    let azimuth = angles::azimuth_of(0.0);
    let Elevation { t, q, r, s } = angles::elevation_of(cosine, sine);
    cell(row, azimuth, 1.570796, t, q, r, s)
}

// By the fourth power of the elevation's sine, so that straight up reads the same at each azimuth.
#[tactic(auto, unfolding(crate::specs::Cell::blend_of, single::proofs::Literals::round, single::proofs::Literals::of_bits))]
pub fn blend(e: Elevation, zenith: f32, rain: f32) -> f32
    ensures { result ≡ blend_of e zenith rain }
{
    let gmorph = e.s;
    zenith * gmorph + rain * (1.0 - gmorph)
}

#[tactic(auto, unfolding(crate::specs::Cell::blends_with_zenith))]
pub fn blends_with_zenith(kind: Kind) -> bool
    ensures { result ≡ blends_with_zenith kind }
{
    matches!(kind, Kind::Dipole | Kind::Yagi)
}

// `zenith` is the row's own gain there, which types 3 and 4 alone take.
#[tactic(auto, unfolding(crate::specs::Cell::cell_gain))]
pub fn cell_gain(row: Row, zenith: f32, azimuth: Azimuth, delta: f32, e: Elevation) -> f32
    ensures { result ≡ cell_gain row zenith azimuth delta e }
{
    let Elevation { t, q, r, s } = e;
    let rain = cell(row, azimuth, delta, t, q, r, s);
    if blends_with_zenith(row.kind) {
        return blend(e, zenith, rain);
    }
    rain
}
