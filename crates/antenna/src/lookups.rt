// `gain_lookup`, of numbers or of bytes, and the lookup of a card's table.
ghost use Rattle.std.specs.Prelude.{◌≡◌};
ghost use Rattle.antenna.specs.ByteTables.{table_of};
ghost use Rattle.antenna.specs.Lookups.{lookup_number, lookup_values};
ghost use Rattle.antenna.specs.Lookups.{gain_lookup_number, gain_lookup_of, gain_lookup_values, card_lookup_number, card_lookup_of, card_lookup_values};

use crate::filled_rows::from_filled_rows;
use crate::places::locate;
use crate::rows::{GainEfficiency, Reading};
use crate::tables::Table;
use lookup_refusals::{card_refusal, refusal_by_length};
use refusals::Refusal;

// fmc and delta go as the caller hands them in: a struct of both would be taken apart at once.
fn lookup<T: Table>(table: T, fmc: f32, delta: f32) -> Result<GainEfficiency, Refusal>
    ensures { result ≡ gain_lookup_of (T.numbers table) fmc delta }
{
    refusal_by_length(table.is_table(), fmc, delta)?;
    let at = locate(fmc, delta);
    let reading = Reading { table, at };
    Ok(reading.blend())
}

// At fmc MHz and an elevation of delta radians.
#[tactic(auto, using(crate::proofs::Wholes::gain_number, crate::proofs::Wholes::gain_values))]
pub fn gain_lookup(table: &[f32], fmc: f32, delta: f32) -> Result<GainEfficiency, Refusal>
    ensures value { result ≡ gain_lookup_of table.now fmc delta }
    ensures number { lookup_number result ≡ gain_lookup_number table.now fmc delta }
    ensures values { lookup_values result ≡ gain_lookup_values table.now fmc delta }
{
    lookup(table, fmc, delta)
}

#[tactic(auto, using(crate::proofs::Wholes::gain_number, crate::proofs::Wholes::gain_values))]
pub fn gain_lookup_in_bytes(bytes: &[u8], fmc: f32, delta: f32) -> Result<GainEfficiency, Refusal>
    ensures value { result ≡ gain_lookup_of (table_of bytes.now) fmc delta }
    ensures number { lookup_number result ≡ gain_lookup_number (table_of bytes.now) fmc delta }
    ensures values { lookup_values result ≡ gain_lookup_values (table_of bytes.now) fmc delta }
{
    lookup(bytes, fmc, delta)
}

// By the card's first and last MHz and its verdict: only the rows that it filled are read, outside its
// range the nearest one, and a refused card gives zeros. Numbers still: a caller may hold any, and a
// narrower type would ask more of it; a struct of the three would be made only to be handed on.
#[tactic(auto, unfolding(single::proofs::Literals::round, single::proofs::Literals::of_bits, crate::specs::Lookups::card_lookup_of), using(table::proofs::Range::range_of_lem, lookup_refusals::proofs::Accepted::card_accepted, crate::proofs::Names::card_range, crate::proofs::Bounds::low_in, crate::proofs::Bounds::high_in, crate::proofs::CardRows::end_fits, crate::proofs::Wholes::card_answer_values, refusals::proofs::Refusals::accepted, refusals::proofs::Refusals::answered_err, refusals::proofs::Refusals::answered_ok))]
pub fn card_lookup(
    first: i32,
    last: i32,
    verdict: u32,
    table: &[f32],
    fmc: f32,
    delta: f32,
) -> Result<GainEfficiency, Refusal>
    ensures value { result ≡ card_lookup_of first last verdict table.now fmc delta }
    ensures number { lookup_number result ≡ card_lookup_number first last verdict table.now fmc delta }
    ensures values { lookup_values result ≡ card_lookup_values first last verdict table.now fmc delta }
{
    card_refusal(first, last, verdict, table, fmc, delta)?;
    if verdict != 0 {
        return Ok(GainEfficiency {
            gain: 0.0,
            efficiency: 0.0,
        });
    }
    let at = locate(fmc, delta);
    let reading = Reading { table, at };
    Ok(from_filled_rows(first as usize, last as usize, &reading, fmc))
}
