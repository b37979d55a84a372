#![tactic(auto)]
// A card as it is read: its leg and height are each metres or wavelengths.
ghost use Rattle.std.specs.Prelude.{◌≡◌};
ghost use Rattle.cards.specs.Card.{card_of, antenna_for};

use crate::fields::Fields;
use antennas::Antenna;
use lengths::Length;
use parameters::{IoncapParams, Kind, Model};

// `kop` is the type's number as it was handed in, `kind` what it stands for; `params` are the slots as
// `ioninit` reads them, `toaz` the off-azimuth in degrees.
#[derive(Clone, Copy)]
pub struct Card {
    pub kop: i32,
    pub kind: Kind,
    pub first: i32,
    pub last: i32,
    pub toaz: f32,
    pub params: IoncapParams,
    pub leg: Length,
    pub height: Length,
    pub model: Model,
}

#[tactic(auto, unfolding(crate::specs::Card::card_of))]
pub fn read_card(fields: Fields) -> Card
    ensures { result ≡ card_of fields }
{
    let kind = Kind::from(fields.kop);
    let params = parameters::ioninit(fields.kop, &fields.slots);
    Card {
        kop: fields.kop,
        kind,
        first: fields.first,
        last: fields.last,
        toaz: fields.toaz,
        params,
        leg: lengths::read_length(params.anl),
        height: lengths::read_height(kind, params.anh),
        model: fields.model,
    }
}

// What holds for all rows of the card, the azimuth's sine and cosine too.
#[tactic(auto, unfolding(crate::specs::Card::antenna_for))]
pub fn card_antenna(card: Card) -> Antenna
    ensures { result ≡ antenna_for card }
{
    antennas::antenna_with(
        card.kind,
        card.toaz,
        card.params,
        card.leg,
        card.height,
        card.model,
    )
}
