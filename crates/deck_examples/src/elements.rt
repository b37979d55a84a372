#![tactic(auto)]
// The curtain's elements per bay. Above ten they count as ten in the pattern, and straight up, on the
// floor, as they are.
use crate::example_cards::{DeckAndTable, curtain};
use refusals::verdict_number;
use std::io;
use table::{COLUMNS, GAINS, TABLE_LENGTH, Table};

// How many numbers differ, and how many of them are gains straight up.
#[derive(Clone, Copy)]
struct Differences {
    all: u64,
    up: u64,
}

fn is_up(k: usize) -> bool {
    k < GAINS && k % COLUMNS == 90
}

fn count_differences(a: &Table, b: &Table) -> Differences {
    let mut all: u64 = 0;
    let mut up: u64 = 0;
    for k in 0..TABLE_LENGTH {
        if !vectors::same(a[k], b[k]) {
            all += 1;
            up += u64::from(is_up(k));
        }
    }
    Differences { all, up }
}

fn print_beside_ten(rt: &impl Print, elements: i16) -> io::Result<()> {
    let mut ten = DeckAndTable::fresh();
    let mut other = DeckAndTable::fresh();
    let ten_verdict = verdict_number(ten.run(Some(curtain(1, 30, 10.0))));
    let other_verdict = verdict_number(other.run(Some(curtain(1, 30, elements as f32))));
    let Differences { all, up } = count_differences(&ten.table, &other.table);
    print!(rt; "{elements} elements: verdicts {ten_verdict} and {other_verdict}, ")?;
    println!(rt; "numbers that differ: {all}, of them straight up: {up}")
}

pub(crate) fn print_elements(rt: &impl Print) -> io::Result<()> {
    println!(rt; "A curtain of 1 to 30 MHz with ten elements per bay, and another")?;
    for elements in [8, 10, 12, -2] {
        print_beside_ten(rt, elements)?;
    }
    Ok(())
}
