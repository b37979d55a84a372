// What the curtain takes from the card alone: its bays and the elements of each.
ghost use Rattle.std.specs.Prelude.{◌≡◌};
ghost use Rattle.std.specs.Float.{binary32};
ghost use Rattle.std.specs.Float.Ieee.{eq, rem};
ghost use Rattle.single.specs.Single.{num};
ghost use Rattle.elementary.specs.Basic.{cut_toward};
ghost use Rattle.curtain.specs.Card.{count_of, card_of};

// `nn` pairs of bays and, if the bays are odd, `ep` = 1 and `nep` = 1 for the one in the middle; `m`
// elements. `ep` is no method of `nep`: a card made by hand may hold any two.
#[derive(Clone, Copy)]
pub struct CurtainCard {
    pub ep: f32,
    pub nep: u8,
    pub nn: u8,
    pub m: u8,
}

// x cut to a whole number: at most `most`, and `negative` below 0.
#[tactic(auto, using(crate::proofs::Count::count_up, crate::proofs::Count::count_down))]
fn count_of(x: f32, most: u8, negative: u8) -> u8
    ensures { result ≡ count_of (cut_toward x) most negative }
{
    match u32::try_from(elementary::cut(x)) {
        Ok(k) => k.min(u32::from(most)) as u8,
        Err(_) => negative,
    }
}

// An even whole number, zero among them. From 2 ^ 24 on every finite f32 is one. Not by `phi % 2.0`,
// of which Rattle's own compiler makes a call that a C library may lack.
#[tactic(auto, unfolding(single::proofs::Literals::of_bits), using(crate::proofs::Even::even_whole, crate::proofs::Even::part_not_even, crate::proofs::Even::even_large))]
fn is_even(phi: f32) -> bool
    ensures { result ≡ eq (rem binary32 phi (num 2 1)) (num 0 1) }
{
    let size = elementary::abs(phi);
    if size < 16777216.0 {
        size.trunc() == size && elementary::cut(size) % 2 == 0
    } else {
        size.is_finite()
    }
}

// Any number of bays that is not an even whole number counts as odd. 64 bays make 32 pairs, and more
// bays are refused before: the limit is for those who ask here.
#[tactic(auto, unfolding(crate::specs::Card::card_of, crate::specs::Card::card_from, single::proofs::Literals::round, single::proofs::Literals::of_bits))]
pub fn curtain_card(phi: f32, elements: f32) -> CurtainCard
    ensures { result ≡ card_of phi elements }
{
    let (ep, nep) = if is_even(phi) { (0.0, 0) } else { (1.0, 1) };
    CurtainCard {
        ep,
        nep,
        nn: count_of((phi - ep) / 2.0, 32, 0),
        m: count_of(elements, 10, 10),
    }
}
