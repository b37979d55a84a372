// The gain entry. It writes its answer or zeros, with its number by one match, as entries.rt's do.
ghost use Rattle.std.specs.Prelude.{◌≡◌};
ghost use Rattle.capi.specs.Gain.{call_of, gain_result, gain_answer};

use crate::answers::{ANSWER_LENGTH, write_answer};
use ioncap::GainCall;
use parameters::{IoncapParams, Model};

// `iongain` at the carried height, with the parameters in `IoncapParams`' order.
#[unsafe(no_mangle)]
#[tactic(auto, unfolding(crate::specs::Gain::gain_result, crate::specs::Gain::gain_answer, crate::specs::Answer::answered, ioncap::specs::Gain::gain_number, ioncap::specs::Gain::gain_value, ioncap::specs::Gain::efficiency_value, ioncap::specs::Gain::height_left, ioncap::specs::Gain::call_number, ioncap::specs::Gain::call_refusal, limits::specs::Refusals::first_refusal, limits::specs::Tests::length_refusal, single::proofs::Literals::round, single::proofs::Literals::of_bits))]
pub extern "C" fn ioncap_gain(
    height: f32,
    kop: i32,
    toaz: f32,
    asig: f32,
    aeps: f32,
    and: f32,
    anl: f32,
    anh: f32,
    aex1: f32,
    aex2: f32,
    aex3: f32,
    aex4: f32,
    delta: f32,
    fmc: f32,
    model: i32,
    answer: &mut [u8],
) -> u32
    ensures value { result ≡ gain_result (call_of kop toaz asig aeps and anl anh aex1 aex2 aex3 aex4 delta fmc model) height answer.old }
    ensures answer_after { answer.new ≡ gain_answer (call_of kop toaz asig aeps and anl anh aex1 aex2 aex3 aex4 delta fmc model) height answer.old }
{
    if answer.len() != ANSWER_LENGTH {
        return limits::length_refusal(height).number();
    }
    let aex = [aex1, aex2, aex3, aex4];
    let params = IoncapParams {
        asig,
        aeps,
        and,
        anl,
        anh,
        aex,
    };
    let model = Model::from(model);
    let call = GainCall {
        kop,
        toaz,
        params,
        delta,
        fmc,
        model,
    };
    match ioncap::gain_of(call, height) {
        Ok(v) => {
            write_answer(answer, v.gain, v.efficiency, v.height);
            0
        }
        Err(refusal) => {
            write_answer(answer, 0.0, 0.0, height);
            refusal.number()
        }
    }
}
