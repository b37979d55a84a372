#![tactic(auto)]
// Document 01's two cards in its listing's form, and swapped.
ghost use Rattle.std.specs.Prelude.{◌≤◌};

use crate::example_cards::{DeckAndTable, card_at};
use crate::text::InHundredths;
use cards::Fields;
use parameters::Model;
use refusals::verdict_number;
use std::io;
use table::{COLUMNS, GAINS, Table};

// MHz, efficiency and ground gain.
fn print_row(rt: &impl Print, mhz: usize, table: &Table) -> io::Result<()>
    requires { (1 ≤ mhz) × (mhz ≤ 30) }
{
    let row = mhz - 1;
    let efficiency = InHundredths(table[GAINS + row]);
    let ground = InHundredths(table[row * COLUMNS]);
    println!(rt; "{mhz:>3}{efficiency}{ground}")
}

fn card(kop: i32, values: [f32; 7]) -> Fields {
    card_at(kop, 2, 3, 0.0, Model::Compatible, values)
}

fn type_one() -> Fields {
    card(1, [0.0, 100.0, 20.0, 0.0, 0.0, 0.0, 0.0])
}

fn type_two() -> Fields {
    card(2, [-0.5, 0.0, 0.0, 0.0, 0.0, 0.0, 0.0])
}

// A card of 2 to 3 MHz.
fn print_card(rt: &impl Print, fields: Fields, deck: &mut DeckAndTable) -> io::Result<()> {
    let verdict = verdict_number(deck.run(Some(fields)));
    println!(rt; "{:>3}{verdict:>3}", fields.kop)?;
    print_row(rt, 2, &deck.table)?;
    print_row(rt, 3, &deck.table)
}

fn print_in_turn(rt: &impl Print, cards: [Fields; 2]) -> io::Result<()> {
    let mut deck = DeckAndTable::fresh();
    for fields in cards {
        print_card(rt, fields, &mut deck)?;
    }
    Ok(())
}

pub(crate) fn print_listings(rt: &impl Print) -> io::Result<()> {
    println!(rt; "Document 01's cards of types 2 and 1")?;
    print_in_turn(rt, [type_two(), type_one()])?;
    println!(rt; "Swapped")?;
    print_in_turn(rt, [type_one(), type_two()])
}
