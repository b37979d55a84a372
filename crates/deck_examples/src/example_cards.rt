#![tactic(auto)]
// The cards of the examples: dielectric 4 and conductivity 0.01.
use crate::tables::BEFORE;
use cards::Fields;
use deck::{CardAnswer, Deck};
use parameters::Model;
use refusals::Refusal;
use table::{TABLE_LENGTH, Table};

// The values are slots 6 to 12; the first and the last MHz stand apart, as in the card's fields.
pub(crate) fn card_at(
    kop: i32,
    first: i32,
    last: i32,
    toaz: f32,
    model: Model,
    values: [f32; 7],
) -> Fields {
    let mut slots = [0.0f32; 20];
    slots[2] = 4.0;
    slots[3] = 0.01;
    slots[5..12].copy_from_slice(&values);
    Fields {
        kop,
        first,
        last,
        toaz,
        slots,
        model,
    }
}

fn card(kop: i32, first: i32, last: i32, values: [f32; 7]) -> Fields {
    card_at(kop, first, last, 12.5, Model::Corrected, values)
}

pub(crate) fn rhombic(first: i32, last: i32) -> Fields {
    card(1, first, last, [70.0, 115.0, 18.0, 0.0, 0.0, 0.0, 0.0])
}

pub(crate) fn monopole(first: i32, last: i32, height: f32) -> Fields {
    card(2, first, last, [height, 0.0, 0.0, 0.0, 0.0, 0.0, 0.0])
}

// Type 5, whose height is a quarter of a wavelength.
pub(crate) fn log_periodic(first: i32, last: i32, gain: f32) -> Fields {
    card(5, first, last, [gain, 0.0, 0.0, 0.0, 0.0, 0.0, 0.0])
}

pub(crate) fn curtain(first: i32, last: i32, elements: f32) -> Fields {
    card(
        6,
        first,
        last,
        [4.0, -0.5, 10.0, elements, -0.5, -0.5, -0.25],
    )
}

// The deck of the removals. The third is refused by 1, the seventh is a malformed line.
pub(crate) const ENTRIES: usize = 10;

pub(crate) fn entries() -> [Option<Fields>; ENTRIES] {
    [
        Some(rhombic(2, 4)),
        Some(monopole(2, 3, -0.1)),
        Some(card(11, 2, 4, [0.0; 7])),
        Some(curtain(5, 6, 4.0)),
        Some(log_periodic(7, 8, 3.0)),
        Some(card(3, 9, 10, [-0.5, 12.0, 0.0, 0.0, 0.0, 0.0, 0.0])),
        None,
        Some(monopole(1, 1, 4.0)),
        Some(card(10, 29, 30, [70.0, 115.0, 18.0, 3.0, 15.0, 0.0, 0.0])),
        Some(log_periodic(1, 30, -0.2)),
    ]
}

// A card, or a malformed line. Each entry brings the same table.
pub(crate) fn run_entry(card: Option<Fields>, deck: Deck, table: &mut [f32]) -> CardAnswer {
    table::fill(table, BEFORE);
    deck::run_entry(deck, card, table)
}

// A deck, and the table of its last entry.
#[derive(Drop)]
pub(crate) struct DeckAndTable {
    deck: Deck,
    pub table: Table,
}

impl DeckAndTable {
    pub(crate) fn fresh() -> DeckAndTable {
        DeckAndTable {
            deck: deck::fresh(),
            table: [BEFORE; TABLE_LENGTH],
        }
    }

    pub(crate) fn run(&mut self, card: Option<Fields>) -> Result<(), Refusal> {
        let answer = run_entry(card, self.deck, &mut self.table);
        self.deck = answer.deck;
        answer.verdict
    }
}
