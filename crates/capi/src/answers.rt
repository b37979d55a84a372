// The answer's bytes.
ghost use Rattle.std.specs.Prelude.{◌≡◌, length};
ghost use Rattle.capi.specs.Answer.{answer_length, answer_bytes};

use encoding::bytes_of;

pub(crate) const ANSWER_LENGTH: usize = 12;

pub(crate) fn write_answer(answer: &mut [u8], gain: f32, efficiency: f32, height: f32)
    requires { length answer.old ≡ answer_length }
    ensures { answer.new ≡ answer_bytes gain efficiency height }
{
    answer[..4].copy_from_slice(&bytes_of(gain));
    answer[4..8].copy_from_slice(&bytes_of(efficiency));
    answer[8..].copy_from_slice(&bytes_of(height));
}
