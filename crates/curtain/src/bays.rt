// The sum over the bays.
ghost use Rattle.std.specs.Prelude.{◌≡◌};
ghost use Rattle.curtain.specs.Bays.{sx_of};

use crate::card::CurtainCard;

// `sx` after the card's pairs of bays.
#[tactic(auto, unfolding(crate::specs::Bays::sx_of, single::proofs::Literals::round, single::proofs::Literals::of_bits))]
pub(crate) fn bays_sum(card: CurtainCard, fac3: f32, fac4: f32) -> f32
    ensures { result ≡ sx_of card.ep card.nep card.nn fac3 fac4 }
{
    let CurtainCard { ep, nep, nn, .. } = card;
    let mut sx = ep;
    for i in 0..nn {
        let k = 2 * i as u16 + 1 + nep as u16;
        sx += 2.0 * elementary::cos(k as f32 * fac3 * fac4);
    }
    sx
}
