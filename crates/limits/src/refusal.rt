// Refusals 1 to 5, in their order, and those of a slice of the wrong length.
ghost use Rattle.std.specs.Prelude.{◌≡◌};
ghost use Rattle.refusals.specs.Refusals.{number_of, IsJudged};
ghost use Rattle.limits.specs.Tests.{is_ioncap_type, too_many_bays, length_refusal, input_refusal};

use crate::numbers::is_finite;
use parameters::Kind;
use refusals::Refusal;

const MOST_BAYS: f32 = 64.0;

// By the number, as document 01 says it.
#[tactic(auto, unfolding(crate::specs::Tests::is_ioncap_type), using(crate::proofs::Within::within_is))]
fn is_ioncap_type(kop: i32) -> bool
    ensures { result ≡ is_ioncap_type kop }
{
    (1..=10).contains(&kop)
}

fn too_many_bays(kop: i32, bays: f32) -> bool
    ensures { result ≡ too_many_bays kop bays }
{
    match Kind::from(kop) {
        Kind::Curtain => bays > MOST_BAYS,
        _ => false,
    }
}

// Of a call with a slice of the wrong length: the height is judged before.
#[tactic(auto, unfolding(crate::specs::Tests::length_refusal, crate::specs::Refusals::first_refusal))]
pub fn length_refusal(height: f32) -> Refusal
    ensures { number_of result ≡ length_refusal height }
{
    if is_finite(height) {
        Refusal::Length
    } else {
        Refusal::Height
    }
}

// The numbers and the MHz are judged by the caller, whose own they are.
#[tactic(auto, unfolding(single::proofs::Literals::of_bits, single::proofs::Literals::round, crate::specs::Refusals::first_refusal, crate::specs::Tests::input_refusal), using(refusals::proofs::Refusals::is_judged))]
pub fn input_refusal(
    kop: i32,
    outside: bool,
    asig: f32,
    mhz_outside: bool,
    bays: f32,
) -> Result<(), Refusal>
    ensures { IsJudged (input_refusal kop outside asig mhz_outside bays) result }
{
    if !is_ioncap_type(kop) {
        return Err(Refusal::Type);
    }
    if outside {
        return Err(Refusal::Number);
    }
    if !(asig > 0.0) {
        return Err(Refusal::Conductivity);
    }
    if mhz_outside {
        return Err(Refusal::Mhz);
    }
    if too_many_bays(kop, bays) {
        return Err(Refusal::Bays);
    }
    Ok(())
}
