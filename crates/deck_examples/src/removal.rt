#![tactic(auto)]
// A deck run with and without one of its entries.
ghost use Rattle.std.specs.Prelude.{◌≤◌, IfOk};

use crate::example_cards::{DeckAndTable, ENTRIES, entries};
use crate::text::InHundredths;
use std::{fmt, io};
use table::{COLUMNS, GAINS, TABLE_LENGTH, Table};

// Where a number stands in its table.
#[derive(Clone, Copy)]
struct Place(usize);

impl fmt::Display for Place {
    fn fmt<W: fmt::Write>(&self, f: &mut fmt::Formatter<W>) -> fmt::Result {
        let k = self.0;
        if k < GAINS {
            return write!(f, "{} MHz, {} degrees", k / COLUMNS + 1, k % COLUMNS);
        }
        write!(f, "{} MHz, efficiency", k - GAINS + 1)
    }
}

// Prints each number that differs, and counts them.
fn print_differences(
    rt: &impl Print,
    entry: usize,
    with: &Table,
    without: &Table,
) -> io::Result<u64>
    ensures { IfOk result (λ n. n ≤ 2760) }
{
    let mut differ: u64 = 0;
    for k in 0..TABLE_LENGTH {
        let x = with[k];
        let y = without[k];
        if vectors::same(x, y) {
            continue;
        }
        println!(rt;
            "  entry {entry}, {}:{} and{}",
            Place(k),
            InHundredths(x),
            InHundredths(y)
        )?;
        differ += 1;
    }
    Ok(differ)
}

// Runs all entries, and all but `removed`.
fn compare_without(rt: &impl Print, removed: usize) -> io::Result<()> {
    let mut with = DeckAndTable::fresh();
    let mut without = DeckAndTable::fresh();
    let mut verdicts: u64 = 0;
    let mut numbers: u64 = 0;
    for (k, &card) in entries().iter().enumerate() {
        let entry = k + 1;
        let verdict = with.run(card);
        if entry == removed {
            continue;
        }
        verdicts += u64::from(verdict != without.run(card));
        numbers += print_differences(rt, entry, &with.table, &without.table)?;
    }
    println!(rt; "  verdicts that differ: {verdicts}, numbers: {numbers}")
}

pub(crate) fn print_removals(rt: &impl Print) -> io::Result<()> {
    println!(rt; "A deck of ten entries, with and without one of them, in hundredths of a dB")?;
    for removed in 1..=ENTRIES {
        println!(rt; "without entry {removed}")?;
        compare_without(rt, removed)?;
    }
    Ok(())
}
