// The entries of the lookup and the cone; gain.rt has the gain's. Each writes its answer or zeros, with
// its number by one match. One function for both would take the cone's one value for a lookup's two, and
// one for the three the height left, which the gain alone has.
ghost use Rattle.std.specs.Prelude.{◌≡◌};
ghost use Rattle.capi.specs.Entries.{lookup_result, lookup_answer, cone_result, cone_answer};

use crate::answers::{ANSWER_LENGTH, write_answer};
use refusals::Refusal;

// `gain_lookup` at fmc MHz and an elevation of delta radians, in a table of 11,040 bytes.
#[unsafe(no_mangle)]
#[tactic(auto, unfolding(crate::specs::Entries::lookup_result, crate::specs::Entries::lookup_answer, crate::specs::Answer::numbered, crate::specs::Answer::answered, single::proofs::Literals::round, single::proofs::Literals::of_bits))]
pub extern "C" fn ioncap_lookup(table: &[u8], fmc: f32, delta: f32, answer: &mut [u8]) -> u32
    ensures value { result ≡ lookup_result table.now fmc delta answer.old }
    ensures answer_after { answer.new ≡ lookup_answer table.now fmc delta answer.old }
{
    if answer.len() != ANSWER_LENGTH {
        return Refusal::Length.number();
    }
    match antenna::gain_lookup_in_bytes(table, fmc, delta) {
        Ok(v) => {
            write_answer(answer, v.gain, v.efficiency, 0.0);
            0
        }
        Err(refusal) => {
            write_answer(answer, 0.0, 0.0, 0.0);
            refusal.number()
        }
    }
}

// `invcon` at freq MHz and an elevation of elev_deg degrees.
#[unsafe(no_mangle)]
#[tactic(auto, unfolding(crate::specs::Entries::cone_result, crate::specs::Entries::cone_answer, crate::specs::Answer::numbered, crate::specs::Answer::answered, single::proofs::Literals::round, single::proofs::Literals::of_bits))]
pub extern "C" fn ioncap_cone(freq: f32, elev_deg: f32, answer: &mut [u8]) -> u32
    ensures value { result ≡ cone_result freq elev_deg answer.old }
    ensures answer_after { answer.new ≡ cone_answer freq elev_deg answer.old }
{
    if answer.len() != ANSWER_LENGTH {
        return Refusal::Length.number();
    }
    match inverted_cone::invcon(freq, elev_deg) {
        Ok(gain) => {
            write_answer(answer, gain, 0.0, 0.0);
            0
        }
        Err(refusal) => {
            write_answer(answer, 0.0, 0.0, 0.0);
            refusal.number()
        }
    }
}
