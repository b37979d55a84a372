#![tactic(auto)]
// A card's plain fields, and what is refused of them.
ghost use Rattle.std.specs.Prelude.{◌≡◌};
ghost use Rattle.refusals.specs.Refusals.{IsJudged};
ghost use Rattle.cards.specs.Fields.{whole_outside, fields_outside, fields_refusal};

use parameters::Model;
use refusals::Refusal;

const MOST: i32 = 1000;

// As document 01 says it: the type, the first and the last MHz, the off-azimuth in degrees, 20
// slots and the model. The MHz stay two, in a card too: they are a range only where the card is accepted.
#[derive(Clone, Copy)]
pub struct Fields {
    pub kop: i32,
    pub first: i32,
    pub last: i32,
    pub toaz: f32,
    pub slots: [f32; 20],
    pub model: Model,
}

#[tactic(auto, unfolding(crate::specs::Fields::whole_outside))]
fn whole_outside(n: i32) -> bool
    ensures { result ≡ whole_outside n }
{
    !(-MOST..=MOST).contains(&n)
}

// All that is handed in, used by the type or not.
#[tactic(auto, unfolding(crate::specs::Fields::fields_outside))]
fn fields_outside(fields: Fields) -> bool
    ensures { result ≡ fields_outside fields }
{
    limits::any_outside(&[fields.toaz])
        || limits::any_outside(&fields.slots)
        || whole_outside(fields.first)
        || whole_outside(fields.last)
}

#[tactic(auto, unfolding(crate::specs::Fields::fields_refusal))]
pub fn fields_refusal(fields: Fields) -> Result<(), Refusal>
    ensures { IsJudged (fields_refusal fields) result }
{
    let outside = fields_outside(fields);
    let params = parameters::ioninit(fields.kop, &fields.slots);
    let mhz_outside = !table::is_range(fields.first, fields.last);
    limits::input_refusal(fields.kop, outside, params.asig, mhz_outside, params.and)
}
