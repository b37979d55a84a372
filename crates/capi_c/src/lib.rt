// The entries of `capi` as a static library for C.
#![tactic(auto)]

ghost use Rattle.std.specs.Prelude.{◌≡◌};
ghost use Rattle.capi.specs.Gain.{call_of, gain_result, gain_answer};
ghost use Rattle.capi.specs.Entries.{lookup_result, lookup_answer, cone_result, cone_answer};

#[unsafe(no_mangle)]
pub extern "C" fn ioncap_gain(
    height: f32,
    kop: i32,
    toaz: f32,
    asig: f32,
    aeps: f32,
    and: f32,
    anl: f32,
    anh: f32,
    aex1: f32,
    aex2: f32,
    aex3: f32,
    aex4: f32,
    delta: f32,
    fmc: f32,
    model: i32,
    answer: &mut [u8],
) -> u32
    ensures value { result ≡ gain_result (call_of kop toaz asig aeps and anl anh aex1 aex2 aex3 aex4 delta fmc model) height answer.old }
    ensures answer_after { answer.new ≡ gain_answer (call_of kop toaz asig aeps and anl anh aex1 aex2 aex3 aex4 delta fmc model) height answer.old }
{
    capi::ioncap_gain(
        height, kop, toaz, asig, aeps, and, anl, anh, aex1, aex2, aex3, aex4, delta, fmc, model,
        answer,
    )
}

#[unsafe(no_mangle)]
pub extern "C" fn ioncap_lookup(table: &[u8], fmc: f32, delta: f32, answer: &mut [u8]) -> u32
    ensures value { result ≡ lookup_result table.now fmc delta answer.old }
    ensures answer_after { answer.new ≡ lookup_answer table.now fmc delta answer.old }
{
    capi::ioncap_lookup(table, fmc, delta, answer)
}

#[unsafe(no_mangle)]
pub extern "C" fn ioncap_cone(freq: f32, elev_deg: f32, answer: &mut [u8]) -> u32
    ensures value { result ≡ cone_result freq elev_deg answer.old }
    ensures answer_after { answer.new ≡ cone_answer freq elev_deg answer.old }
{
    capi::ioncap_cone(freq, elev_deg, answer)
}
