#![tactic(auto)]
// The gain call over a carried height that the caller keeps, as `state` in the Rust.
ghost use Rattle.std.specs.Prelude.{◌≡◌};
ghost use Rattle.ioncap.specs.Gain.{gain_of, gain_number, gain_value, efficiency_value};
ghost use Rattle.ioncap.specs.Gain.{call_number, call_gain, call_efficiency, call_height};
ghost use Rattle.state.specs.State.{state_at};

use ioncap::{Answer, GainCall};
use refusals::Refusal;

#[derive(Clone, Copy)]
pub struct IoncapState {
    pub x: f32,
}

pub fn iongain(state: &mut IoncapState, call: GainCall) -> Result<Answer, Refusal>
    ensures { (result ≡ gain_of call state.old.x)
        × (gain_number result ≡ call_number call state.old.x)
        × (gain_value result ≡ call_gain call state.old.x)
        × (efficiency_value result ≡ call_efficiency call state.old.x)
        × (state.new ≡ state_at (call_height call state.old.x)) }
{
    let x = state.x;
    let answer = ioncap::gain_of(call, x);
    state.x = ioncap::height_left(answer, x);
    answer
}
