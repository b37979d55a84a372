#![tactic(auto)]
// The filling of a card's rows, by rising MHz.
ghost use Rattle.std.specs.Prelude.{◌≡◌};
ghost use Rattle.refusals.specs.Refusals.{outcome_number, outcome_values};
ghost use Rattle.independence.specs.EntryContracts.{CardDone};
ghost use Rattle.cards.specs.Fields.{fields_refusal};
ghost use Rattle.deck.specs.Antenna.{the_antenna};

use crate::columns::all_columns;
use crate::row::fill_row;
use cards::{Fields, card_antenna, read_card};
use refusals::Refusal;
use table::Table;

// The height left.
#[tactic(auto, using(crate::proofs::BeforeWork::number_not_zero, crate::proofs::CardRows::rows_of, crate::proofs::CardRows::rows_read, crate::proofs::CardRows::rows_start, crate::proofs::CardRows::rows_step, crate::proofs::CardRows::rows_last, crate::proofs::CardRows::rows_stop, crate::proofs::CardRows::rows_end))]
pub(crate) fn fill_card(fields: Fields, height: f32, table: &mut Table) -> Result<f32, Refusal>
    requires { fields_refusal fields ≡ 0 }
    ensures { CardDone the_antenna fields height table.old table.new (outcome_number result) (outcome_values height result) }
{
    let card = read_card(fields);
    let antenna = card_antenna(card);
    let columns = all_columns();
    let first = card.first as usize;
    let last = card.last as usize;
    let mut x = height;
    for m in first..=last {
        x = fill_row(antenna, m, x, &columns, table)?;
    }
    Ok(x)
}
