#![tactic(auto)]
// A deck's carried height and counts: document 01 section 8.
ghost use Rattle.std.specs.Prelude.{◌≡◌};
ghost use Rattle.refusals.specs.Refusals.{number_of, IsJudged};
ghost use Rattle.independence.specs.Deck.{fresh};
ghost use Rattle.deck_state.specs.DeckState.{deck_of, state_of, is_full, deck_refusal, refused_within};

use refusals::Refusal;

// From here on a card is refused by 10.
const COUNT_LIMIT: u64 = 1_000_000;

// The term "deck" of section 8.
#[derive(Clone, Copy)]
pub struct Deck {
    pub height: f32,
    pub accepted: u32,
    pub refused: u32,
}

// Section 8 says these zeros: by a derived `Default` they would no longer stand here.
pub fn fresh() -> Deck
    ensures { result ≡ deck_of fresh }
{
    Deck {
        height: 0.0,
        accepted: 0,
        refused: 0,
    }
}

fn is_full(deck: Deck) -> bool
    ensures { result ≡ is_full (state_of deck) }
{
    COUNT_LIMIT <= deck.accepted as u64 + deck.refused as u64
}

// Refusals 10, 9 and 7: what is refused of any entry.
#[tactic(auto, unfolding(crate::specs::DeckState::deck_refusal, limits::specs::Refusals::first_refusal))]
pub fn deck_refusal(deck: Deck, table: &[f32]) -> Result<(), Refusal>
    ensures { IsJudged (deck_refusal (state_of deck) table.now) result }
{
    if is_full(deck) {
        return Err(Refusal::Count);
    }
    if !limits::is_finite(deck.height) {
        return Err(Refusal::Height);
    }
    if !table::is_table(table) {
        return Err(Refusal::Length);
    }
    Ok(())
}

// 10 raises no count, and a full deck's counts stay. By the number: a caller may hold any.
#[tactic(auto, unfolding(crate::specs::DeckState::refused_within, independence::specs::Deck::refused_deck))]
pub fn refused_deck(deck: Deck, verdict: u32) -> Deck
    ensures { result ≡ deck_of (refused_within (state_of deck) verdict) }
{
    if is_full(deck) || verdict == Refusal::Count.number() {
        return deck;
    }
    Deck {
        refused: deck.refused + 1,
        ..deck
    }
}
