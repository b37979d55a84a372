#![tactic(auto)]
// The deck: the carried height and the counts, and the entries that are run on it.
ghost use Rattle.std.specs.Prelude.{◌≡◌};
ghost use Rattle.refusals.specs.Refusals.{number_of, outcome_number, IsJudged};
ghost use Rattle.independence.specs.EntryContracts.{refusal_before_work, malformed_refusal, EntryDone};
ghost use Rattle.deck.specs.Antenna.{the_antenna};
ghost use Rattle.table.specs.Table.{refused_table};
ghost use Rattle.deck.specs.Run.{count_limit, state_of, card_entry, malformed_entry, line_entry, answer_on, refused_answer, WorkDone};

use crate::filling::fill_card;
use cards::{Fields, fields_refusal};
use deck_state::{Deck, deck_refusal, refused_deck};
use refusals::Refusal;
use table::TABLE_LENGTH;

// What the run of a card or of a malformed line answers.
#[derive(Clone, Copy)]
pub struct CardAnswer {
    pub deck: Deck,
    pub verdict: Result<(), Refusal>,
}

// 10, 9, 7 and 1 to 5: all of a card's but 11, which arises in the work.
#[tactic(auto, using(crate::proofs::BeforeWork::before_work))]
fn refusal_before_work(deck: Deck, fields: Fields, table: &[f32]) -> Result<(), Refusal>
    ensures { IsJudged (refusal_before_work the_antenna count_limit (state_of deck) fields table.now) result }
{
    deck_refusal(deck, table)?;
    fields_refusal(fields)
}

#[tactic(auto, using(crate::proofs::BeforeWork::before_work))]
fn malformed_refusal(deck: Deck, table: &[f32]) -> Refusal
    ensures { number_of result ≡ malformed_refusal the_antenna count_limit (state_of deck) table.now }
{
    deck_refusal(deck, table)
        .err()
        .unwrap_or(Refusal::Malformed)
}

// The height left. The table is cleared, then filled; a refusal may leave anything in it.
#[tactic(auto, using(crate::proofs::Work::work))]
fn filled(deck: Deck, fields: Fields, table: &mut [f32]) -> Result<f32, Refusal>
    ensures { WorkDone deck fields table.old table.new result }
{
    refusal_before_work(deck, fields, table)?;
    table::clear_refused(table);
    let cells = table.as_mut_array::<TABLE_LENGTH>().unwrap();
    fill_card(fields, deck.height, cells)
}

// A refused entry's table is cleared, if its length is right, and the height found is kept.
fn refused(deck: Deck, refusal: Refusal, table: &mut [f32]) -> CardAnswer
    ensures cleared { table.new ≡ refused_table table.old }
    ensures value { result ≡ refused_answer deck refusal }
{
    table::clear_refused(table);
    CardAnswer {
        deck: refused_deck(deck, refusal.number()),
        verdict: Err(refusal),
    }
}

#[tactic(auto, using(crate::proofs::Answers::answered))]
pub fn run_card(deck: Deck, fields: Fields, table: &mut [f32]) -> CardAnswer
    ensures entry_done { EntryDone the_antenna count_limit (state_of deck) (card_entry fields table.old) table.new (outcome_number result.verdict) (state_of result.deck) }
    ensures value { result ≡ answer_on deck (card_entry fields table.old) }
{
    match filled(deck, fields, table) {
        Ok(height) => CardAnswer {
            deck: Deck {
                height,
                accepted: deck.accepted + 1,
                refused: deck.refused,
            },
            verdict: Ok(()),
        },
        Err(refusal) => refused(deck, refusal, table),
    }
}

#[tactic(auto, using(crate::proofs::Work::malformed_done, crate::proofs::Answers::answered))]
pub fn run_malformed(deck: Deck, table: &mut [f32]) -> CardAnswer
    ensures entry_done { EntryDone the_antenna count_limit (state_of deck) (malformed_entry table.old) table.new (outcome_number result.verdict) (state_of result.deck) }
    ensures value { result ≡ answer_on deck (malformed_entry table.old) }
{
    let refusal = malformed_refusal(deck, table);
    refused(deck, refusal, table)
}

// A card, or a malformed line.
pub fn run_entry(deck: Deck, entry: Option<Fields>, table: &mut [f32]) -> CardAnswer
    ensures entry_done { EntryDone the_antenna count_limit (state_of deck) (line_entry entry table.old) table.new (outcome_number result.verdict) (state_of result.deck) }
    ensures value { result ≡ answer_on deck (line_entry entry table.old) }
{
    match entry {
        Some(fields) => run_card(deck, fields, table),
        None => run_malformed(deck, table),
    }
}
