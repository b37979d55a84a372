// The list `deck`: entries run in turn on one deck, and the rows that an accepted card fills.
ghost use Rattle.std.specs.Prelude.{◌<◌, ◌≤◌};

use crate::line::{Line, float, is, length, model, slots, word};
use cards::Fields;
use deck::{CardAnswer, Deck};
use refusals::{Refusal, verdict_number};
use std::ops::RangeInclusive;
use table::{COLUMNS, GAINS, ROWS, TABLE_LENGTH, Table};

// What all cells hold before a card.
const BEFORE: f32 = 1.0;

// What a line leaves to the next: the deck, its table, and the row that a line of a row is compared
// with.
#[derive(Drop)]
pub(crate) struct Replay {
    deck: Deck,
    table: Table,
    row: usize,
}

fn fields(line: &Line) -> Fields {
    Fields {
        kop: vectors::signed(word(line, 0)),
        first: vectors::signed(word(line, 1)),
        last: vectors::signed(word(line, 2)),
        toaz: float(line, 4),
        slots: slots(line, 5),
        model: model(word(line, 3)),
    }
}

fn run_entry(line: &Line, deck: Deck, table: &mut [f32]) -> CardAnswer {
    let entry = (line[0] != b'm').then(|| fields(line));
    deck::run_entry(deck, entry, table)
}

// Verdict, height and counts.
fn is_answer(line: &Line, answer: CardAnswer) -> bool {
    let deck = answer.deck;
    (word(line, 26) == verdict_number(answer.verdict))
        & is(line, 27, deck.height)
        & (word(line, 28) == deck.accepted)
        & (word(line, 29) == deck.refused)
}

// The row that cell k belongs to, 1 to 30.
fn row_of(k: usize) -> usize
    requires { k < 2760 }
{
    if k < GAINS {
        k / COLUMNS + 1
    } else {
        k - GAINS + 1
    }
}

// Whether the numbers of all rows but these are 0.
fn are_others_zero(table: &Table, filled: RangeInclusive<usize>) -> bool {
    (0..TABLE_LENGTH).all(|k| filled.contains(&row_of(k)) || vectors::same(table[k], 0.0))
}

fn are_all(table: &Table, x: f32) -> bool {
    table.iter().all(|&number| vectors::same(number, x))
}

// Whether the rows that aren't filled are 0. A refused card fills none; one refused by its table's
// length leaves the table as it was.
fn is_rest(line: &Line, verdict: Result<(), Refusal>, table: &Table) -> bool {
    match verdict {
        Ok(()) => are_others_zero(table, word(line, 1) as usize..=word(line, 2) as usize),
        Err(Refusal::Length) => are_all(table, BEFORE),
        Err(_) => are_all(table, 0.0),
    }
}

// The gains and the efficiency of a row, counted from 0.
fn are_cells(line: &Line, row: usize, table: &Table) -> bool
    requires { row < 30 }
{
    (0..COLUMNS).all(|d| is(line, d, table[row * COLUMNS + d]))
        && is(line, COLUMNS, table[GAINS + row])
}

impl Replay {
    pub(crate) fn start() -> Replay {
        Replay {
            deck: deck::fresh(),
            table: [0.0; TABLE_LENGTH],
            row: 0,
        }
    }

    // Runs the line's entry. A row of an accepted card, from its first on, has a line of its own.
    fn is_entry(&mut self, line: &Line) -> bool {
        table::fill(&mut self.table, BEFORE);
        let n = length(line, 25, self.table.len());
        let answer = run_entry(line, self.deck, &mut self.table[..n]);
        self.deck = answer.deck;
        self.row = word(line, 1) as usize;
        is_answer(line, answer) & is_rest(line, answer.verdict, &self.table)
    }

    // A line of a row that the table doesn't have differs.
    fn is_row(&mut self, line: &Line) -> bool {
        let row = self.row;
        if !(1..=ROWS).contains(&row) {
            return false;
        }
        self.row = row + 1;
        are_cells(line, row - 1, &self.table)
    }

    pub(crate) fn is_equal(&mut self, line: &Line) -> bool {
        if line[0] == b'r' {
            return self.is_row(line);
        }
        self.is_entry(line)
    }
}
