#![tactic(auto)]
// Decks that hold something already: the ends of the counts, the height, and the table's length.
ghost use Rattle.std.specs.Prelude.{◌≤◌};

use crate::example_cards::{rhombic, run_entry};
use crate::tables::{BEFORE, count};
use crate::text::InHundredths;
use deck::{CardAnswer, Deck};
use refusals::verdict_number;
use std::io;
use table::TABLE_LENGTH;

fn print_counts_of(rt: &impl Print, deck: Deck) -> io::Result<()> {
    let height = InHundredths(deck.height);
    print!(rt;
        "counts {} and {}, height {height}",
        deck.accepted, deck.refused
    )
}

// How many of the table's numbers are 0, and how many are as they were.
fn print_answer(rt: &impl Print, answer: CardAnswer, table: &[f32]) -> io::Result<()> {
    print!(rt; "    verdict {}, ", verdict_number(answer.verdict))?;
    print_counts_of(rt, answer.deck)?;
    println!(rt;
        ", zeros {}, as before {}",
        count(table, 0.0),
        count(table, BEFORE)
    )
}

// A card of one row and a malformed line, both on the deck as it is given.
fn print_both(rt: &impl Print, deck: Deck, table: &mut [f32]) -> io::Result<()> {
    print!(rt; "  ")?;
    print_counts_of(rt, deck)?;
    println!(rt; ", length {}", table.len())?;
    for card in [Some(rhombic(5, 5)), None] {
        let answer = run_entry(card, deck, table);
        print_answer(rt, answer, table)?;
    }
    Ok(())
}

// A deck that holds something, and how much of a table it is run with.
#[derive(Clone, Copy)]
struct Preset {
    deck: Deck,
    length: usize,
    ghost within: { length ≤ 2761 },
}

fn preset_of(height: f32, accepted: u32, refused: u32, length: usize) -> Preset
    requires { length ≤ 2761 }
{
    let deck = Deck {
        height,
        accepted,
        refused,
    };
    Preset { deck, length }
}

fn presets() -> [Preset; 17] {
    [
        preset_of(0.5, 999_999, 0, TABLE_LENGTH),
        preset_of(0.5, 499_999, 500_000, TABLE_LENGTH),
        preset_of(0.5, 1_000_000, 0, TABLE_LENGTH),
        preset_of(0.5, 500_000, 500_000, TABLE_LENGTH),
        preset_of(0.5, 0, 1_000_001, TABLE_LENGTH),
        preset_of(0.5, u32::MAX, u32::MAX, TABLE_LENGTH),
        preset_of(0.5, u32::MAX, 1, TABLE_LENGTH),
        preset_of(f32::NAN, 3, 4, TABLE_LENGTH),
        preset_of(f32::INFINITY, 3, 4, TABLE_LENGTH),
        preset_of(f32::NEG_INFINITY, 3, 4, TABLE_LENGTH),
        preset_of(-1000.5, 3, 4, TABLE_LENGTH),
        preset_of(f32::NAN, 1_000_000, 4, TABLE_LENGTH),
        preset_of(0.5, 3, 4, 0),
        preset_of(0.5, 3, 4, TABLE_LENGTH - 1),
        preset_of(0.5, 3, 4, TABLE_LENGTH + 1),
        preset_of(f32::NAN, 3, 4, TABLE_LENGTH + 1),
        preset_of(0.5, 1_000_000, 4, TABLE_LENGTH + 1),
    ]
}

fn print_preset(rt: &impl Print, preset: Preset) -> io::Result<()> {
    let mut table = [0.0f32; TABLE_LENGTH + 1];
    print_both(rt, preset.deck, &mut table[..preset.length])
}

pub(crate) fn print_presets(rt: &impl Print) -> io::Result<()> {
    println!(rt; "Decks that hold something: a card of one row, and a malformed entry")?;
    for preset in presets() {
        print_preset(rt, preset)?;
    }
    Ok(())
}
