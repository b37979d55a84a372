// `invcon`: a measured table, interpolated in elevation and frequency.
ghost use Rattle.std.specs.Prelude.{◌≡◌, ◌<◌, ◌≤◌, length};
ghost use Rattle.inverted_cone.specs.InvertedCone.{weight_of, interp_of, upper_of, cone_value};
ghost use Rattle.inverted_cone.specs.InvertedCone.{cone_gain_number, cone_gain_value, invcon_number, invcon_of, invcon_value};

use crate::cone_table::{CONE, CONE_ELEVS, CONE_FREQS};
use refusals::Refusal;

#[tactic(auto, unfolding(crate::specs::InvertedCone::interp_of, single::proofs::Literals::round, single::proofs::Literals::of_bits))]
fn interp(a: f32, b: f32, c: f32) -> f32
    ensures { result ≡ interp_of a b c }
{
    a * (1.0 - c) + b * c
}

#[tactic(auto, unfolding(crate::specs::InvertedCone::weight_of))]
fn weight(a: f32, b: f32, c: f32) -> f32
    ensures { result ≡ weight_of a b c }
{
    (a - b) / (c - b)
}

// The first bound from the second on that is not below x; the last where all are. Each bound is tried:
// with a search that leaves at the first, as `position` does, a cone took 30.9 ns at random and 18.3 in
// turn, where this takes 20.3 (docs/SPEED.md); a `partition_point` took longer still (timed in Rust).
#[tactic(auto, unfolding(crate::specs::InvertedCone::upper_of))]
fn upper(x: f32, bounds: &[f32]) -> usize
    requires { 1 < length bounds.now }
    ensures { (result ≡ upper_of x bounds.now) × (1 ≤ result) × (result < length bounds.now) }
{
    let mut found = bounds.len() - 1;
    for i in (1..bounds.len() - 1).rev() {
        if x <= bounds[i] {
            found = i;
        }
    }
    found
}

// Place and weight of each axis have the Rust's names: a pair of the two would be taken apart at once.
fn cone_value(freq: f32, elev_deg: f32) -> f32
    ensures { result ≡ cone_value freq elev_deg }
{
    let ian = upper(elev_deg, &CONE_ELEVS);
    let ifr = upper(freq, &CONE_FREQS);
    let fwt = weight(freq, CONE_FREQS[ifr], CONE_FREQS[ifr - 1]);
    let awt = weight(elev_deg, CONE_ELEVS[ian], CONE_ELEVS[ian - 1]);
    let g1 = interp(CONE[ian][ifr], CONE[ian - 1][ifr], awt);
    let g2 = interp(CONE[ian][ifr - 1], CONE[ian - 1][ifr - 1], awt);
    interp(g1, g2, fwt)
}

// At freq MHz and an elevation of elev_deg degrees.
#[tactic(auto, unfolding(crate::specs::InvertedCone::invcon_number, crate::specs::InvertedCone::invcon_of, crate::specs::InvertedCone::invcon_value, limits::specs::Refusals::first_refusal, single::proofs::Literals::round, single::proofs::Literals::of_bits))]
pub fn invcon(freq: f32, elev_deg: f32) -> Result<f32, Refusal>
    ensures value { result ≡ invcon_of freq elev_deg }
    ensures number { cone_gain_number result ≡ invcon_number freq elev_deg }
    ensures gain { cone_gain_value result ≡ invcon_value freq elev_deg }
{
    if limits::any_outside(&[freq, elev_deg]) {
        return Err(Refusal::Number);
    }
    Ok(cone_value(freq, elev_deg))
}
