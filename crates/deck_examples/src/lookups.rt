#![tactic(auto)]
// Lookups by a card's first and last MHz and its verdict, beside `gain_lookup` in the same table.
ghost use Rattle.std.specs.Prelude.{◌≤◌};

use crate::example_cards::{DeckAndTable, rhombic};
use crate::text::InHundredths;
use antenna::GainEfficiency;
use refusals::{Refusal, verdict_number};
use std::io;
use table::{COLUMNS, GAINS, TABLE_LENGTH, Table};

// What a card's lookup takes beside the table, the verdict as the number that it takes.
#[derive(Clone, Copy)]
struct CardRange {
    first: i32,
    last: i32,
    verdict: u32,
}

// Eight are made below, each in a line.
fn range_of(first: i32, last: i32, verdict: u32) -> CardRange {
    CardRange {
        first,
        last,
        verdict,
    }
}

// Zeros where it is refused. The other programs that print an answer have other columns, so one
// function for all is no plainer.
fn print_found(rt: &impl Print, found: Result<GainEfficiency, Refusal>) -> io::Result<()> {
    let (gain, efficiency) = found.map_or((0.0, 0.0), |v| (v.gain, v.efficiency));
    let number = verdict_number(found);
    print!(rt;
        "{number:>3}{}{}",
        InHundredths(gain),
        InHundredths(efficiency)
    )
}

// Minus 0 has the bits 2147483648.
fn print_bits_of(rt: &impl Print, found: Result<GainEfficiency, Refusal>) -> io::Result<()> {
    if let Ok(v) = found {
        print!(rt;
            " {} {}",
            vectors::bits(v.gain),
            vectors::bits(v.efficiency)
        )?;
    }
    Ok(())
}

fn print_lookup(
    rt: &impl Print,
    card: CardRange,
    table: &[f32],
    mhz: f32,
    elevation: f32,
) -> io::Result<()> {
    let found = antenna::card_lookup(card.first, card.last, card.verdict, table, mhz, elevation);
    print!(rt; "{}", InHundredths(mhz))?;
    print_found(rt, found)?;
    print_found(rt, antenna::gain_lookup(table, mhz, elevation))?;
    print!(rt; " {}", vectors::bits(mhz))?;
    print_bits_of(rt, found)?;
    println!(rt)
}

// Around the ends of 2 to 12 MHz, with the f32 below each, and beyond the table.
const MHZ: [f32; 13] = [
    -5.0, 0.5, 1.0, 1.9999999, 2.0, 7.25, 11.999999, 12.0, 12.5, 13.0, 30.5, 1000.0, 1000.0001,
];

fn print_range(rt: &impl Print, card: CardRange, table: &[f32], elevation: f32) -> io::Result<()> {
    for mhz in MHZ {
        print_lookup(rt, card, table, mhz, elevation)?;
    }
    Ok(())
}

fn print_others(rt: &impl Print, table: &[f32]) -> io::Result<()> {
    let others = [
        range_of(7, 7, 0),
        range_of(2, 12, 3),
        range_of(12, 2, 3),
        range_of(12, 2, 0),
        range_of(2, 31, 0),
        range_of(0, 12, 0),
    ];
    for card in others {
        print_lookup(rt, card, table, 12.5, 0.3)?;
    }
    Ok(())
}

// On the ground and as efficiency.
fn set_minus_zeros(table: &mut Table, mhz: usize)
    requires { (1 ≤ mhz) × (mhz ≤ 30) }
{
    let row = mhz - 1;
    table[row * COLUMNS] = -0.0;
    table[row * COLUMNS + 1] = -1.0;
    table[GAINS + row] = -0.0;
}

fn print_beside_infinities(rt: &impl Print) -> io::Result<()> {
    let mut table = [f32::INFINITY; TABLE_LENGTH];
    set_minus_zeros(&mut table, 2);
    set_minus_zeros(&mut table, 12);
    print_range(rt, range_of(2, 12, 0), &table, 0.0)
}

pub(crate) fn print_lookups(rt: &impl Print) -> io::Result<()> {
    println!(rt;
        "A rhombic of 2 to 12 MHz: MHz; refusal, gain and efficiency by its range, and by gain_lookup; bits"
    )?;
    let mut deck = DeckAndTable::fresh();
    let verdict = verdict_number(deck.run(Some(rhombic(2, 12))));
    print_range(rt, range_of(2, 12, verdict), &deck.table, 0.3)?;
    println!(rt;
        "Its table by 7 to 7 MHz, by a refused card twice, by 12 to 2, 2 to 31 and 0 to 12 MHz"
    )?;
    print_others(rt, &deck.table)?;
    println!(rt; "Rows 2 and 12 between rows of infinities, on the ground")?;
    print_beside_infinities(rt)
}
