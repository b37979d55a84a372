// The public gain call, by value.
ghost use Rattle.std.specs.Prelude.{◌≡◌};
ghost use Rattle.refusals.specs.Refusals.{IsJudged};
ghost use Rattle.ioncap.specs.Gain.{call_outside, mhz_outside, call_refusal, gain_of};
ghost use Rattle.ioncap.specs.Gain.{gain_number, gain_value, efficiency_value, height_left};
ghost use Rattle.ioncap.specs.Gain.{call_number, call_gain, call_efficiency, call_height};

use elementary::SineCosine;
use gain_core::{Answer, work};
use parameters::{IoncapParams, Kind, Model};
use refusals::Refusal;

// Elevation in radians, off-azimuth in degrees. The type is a number as it was handed in: refusal 1 judges
// it, so it may be no type's.
#[derive(Clone, Copy)]
pub struct GainCall {
    pub kop: i32,
    pub toaz: f32,
    pub params: IoncapParams,
    pub delta: f32,
    pub fmc: f32,
    pub model: Model,
}

// All that is handed in, used by the type or not.
#[tactic(auto, unfolding(crate::specs::Gain::call_outside))]
fn call_outside(call: GainCall) -> bool
    ensures { result ≡ call_outside call }
{
    let GainCall {
        toaz,
        params,
        delta,
        fmc,
        ..
    } = call;
    let IoncapParams {
        asig,
        aeps,
        and,
        anl,
        anh,
        aex,
    } = params;
    let numbers = [toaz, asig, aeps, and, anl, anh, delta, fmc];
    limits::any_outside(&numbers) || limits::any_outside(&aex)
}

// By two comparisons, as its definition: a range's `contains` is no plainer.
#[tactic(auto, unfolding(crate::specs::Gain::mhz_outside, single::proofs::Literals::round, single::proofs::Literals::of_bits))]
fn mhz_outside(fmc: f32) -> bool
    ensures { result ≡ mhz_outside fmc }
{
    !(1.0 <= fmc) || !(fmc <= 30.0)
}

#[tactic(auto, unfolding(crate::specs::Gain::call_refusal, limits::specs::Refusals::first_refusal, limits::specs::Tests::input_refusal, single::proofs::Literals::round, single::proofs::Literals::of_bits), using(refusals::proofs::Refusals::is_judged))]
fn call_refusal(call: GainCall, height: f32) -> Result<(), Refusal>
    ensures { IsJudged (call_refusal call height) result }
{
    if !limits::is_finite(height) {
        return Err(Refusal::Height);
    }
    let outside = call_outside(call);
    let mhz_outside = mhz_outside(call.fmc);
    let params = call.params;
    limits::input_refusal(call.kop, outside, params.asig, mhz_outside, params.and)
}

pub fn gain_of(call: GainCall, height: f32) -> Result<Answer, Refusal>
    ensures { (result ≡ gain_of call height)
        × (gain_number result ≡ call_number call height) × (gain_value result ≡ call_gain call height)
        × (efficiency_value result ≡ call_efficiency call height) × (height_left result height ≡ call_height call height) }
{
    call_refusal(call, height)?;
    let GainCall {
        kop,
        toaz,
        params,
        delta,
        fmc,
        model,
    } = call;
    let antenna = antennas::antenna_of(Kind::from(kop), toaz, params, model);
    let SineCosine { sine, cosine } = elementary::sin_cos(delta);
    let e = angles::elevation_of(cosine, sine);
    let worked = work(antenna, fmc, delta, e, height).ok_or(Refusal::Unsettled)?;
    Ok(worked.value)
}

// A refusal keeps the height.
#[tactic(auto, unfolding(crate::specs::Gain::height_left))]
pub fn height_left<E: Copy>(answer: Result<Answer, E>, height: f32) -> f32
    ensures { result ≡ height_left answer height }
{
    answer.map_or(height, |a| a.height)
}
