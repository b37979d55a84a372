#![tactic(auto)]
// What is refused of a lookup: document 01 section 9.
ghost use Rattle.std.specs.Prelude.{◌≡◌};
ghost use Rattle.refusals.specs.Refusals.{IsJudged};
ghost use Rattle.lookup_refusals.specs.LookupRefusals.{refusal_by_length, lookup_refusal, card_refusal};

use refusals::Refusal;

// 7, then 2 of the MHz and the elevation looked up. The length is judged by the caller, who has the
// table as numbers or as bytes.
#[tactic(auto, unfolding(crate::specs::LookupRefusals::refusal_by_length, limits::specs::Refusals::first_refusal), using(refusals::proofs::Refusals::is_judged))]
pub fn refusal_by_length(is_table: bool, fmc: f32, delta: f32) -> Result<(), Refusal>
    ensures { IsJudged (refusal_by_length is_table fmc delta) result }
{
    if !is_table {
        return Err(Refusal::Length);
    }
    if limits::any_outside(&[fmc, delta]) {
        return Err(Refusal::Number);
    }
    Ok(())
}

pub fn lookup_refusal(table: &[f32], fmc: f32, delta: f32) -> Result<(), Refusal>
    ensures { IsJudged (lookup_refusal table.now fmc delta) result }
{
    refusal_by_length(table::is_table(table), fmc, delta)
}

// A refused card's first and last MHz are not looked at. They and the verdict are numbers still: a
// caller may hold any, and a narrower type would ask more of it; a struct of the three would be made
// only to be handed on.
#[tactic(auto, using(refusals::proofs::Refusals::is_judged, refusals::proofs::Refusals::accepted, refusals::proofs::Refusals::refused, refusals::proofs::Refusals::number_positive, crate::proofs::Accepted::card_refused, crate::proofs::Accepted::card_by_range))]
pub fn card_refusal(
    first: i32,
    last: i32,
    verdict: u32,
    table: &[f32],
    fmc: f32,
    delta: f32,
) -> Result<(), Refusal>
    ensures { IsJudged (card_refusal first last verdict table.now fmc delta) result }
{
    lookup_refusal(table, fmc, delta)?;
    if verdict == 0 && !table::is_range(first, last) {
        return Err(Refusal::Mhz);
    }
    Ok(())
}
