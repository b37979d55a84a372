// The list `antenna`: lookups in seeded tables, and the inverted cone.
ghost use Rattle.std.specs.Prelude.{◌<◌, ◌≤◌};

use crate::line::{Line, float, is, length, word};
use antenna::GainEfficiency;
use refusals::{Refusal, verdict_number};
use std::array;
use table::{COLUMNS, TABLE_LENGTH};

// One more than a table has, for the lines with a wrong length.
const CELLS: usize = TABLE_LENGTH + 1;

// The halves of n changed over, times a prime.
fn mixed(n: u32) -> u32 {
    n.rotate_left(16).wrapping_mul(2246822519)
}

// Numbers from -100 to 28 and a little more.
fn plain_cell(a: u32, b: u32) -> f32 {
    let high = (b / 64 % 65536) as u16;
    let low = (a % 65536) as u16;
    high as f32 / 512.0 - 100.0 + low as f32 / 7919.0
}

// Cell k of a seed's table.
fn cell(seed: u32, k: u32) -> f32 {
    let a = mixed(seed.wrapping_add(k.wrapping_mul(2654435761)));
    let b = mixed(a);
    match b % 64 {
        0 => f32::NAN,
        1 => f32::INFINITY,
        2 => f32::NEG_INFINITY,
        3 => -0.0,
        4 => 0.0,
        5 => vectors::float(a),
        _ => plain_cell(a, b),
    }
}

// Seed 0 has -30 and -20 on the ground in rows 1 and 2, and zeros elsewhere.
fn example_table() -> [f32; CELLS] {
    let mut table = [0.0f32; CELLS];
    table[0] = -30.0;
    table[COLUMNS] = -20.0;
    table
}

fn seeded_table(seed: u32) -> [f32; CELLS] {
    if seed == 0 {
        return example_table();
    }
    array::from_fn(|k| cell(seed, k as u32))
}

fn lookup(line: &Line, table: &[f32]) -> Result<GainEfficiency, Refusal> {
    if line[0] == b'l' {
        return antenna::gain_lookup(table, float(line, 5), float(line, 6));
    }
    antenna::card_lookup(
        vectors::signed(word(line, 2)),
        vectors::signed(word(line, 3)),
        word(line, 4),
        table,
        float(line, 5),
        float(line, 6),
    )
}

// A refusal as the number that the list has, with zeros; in list_gains the same, at other columns.
fn is_outcome(line: &Line, found: Result<GainEfficiency, Refusal>) -> bool {
    let (gain, efficiency) = found.map_or((0.0, 0.0), |v| (v.gain, v.efficiency));
    (word(line, 7) == verdict_number(found)) & is(line, 8, gain) & is(line, 9, efficiency)
}

fn is_lookup(line: &Line) -> bool {
    let table = seeded_table(word(line, 0));
    let n = length(line, 1, table.len());
    is_outcome(line, lookup(line, &table[..n]))
}

// The cone has no efficiency.
fn cone(line: &Line) -> Result<GainEfficiency, Refusal> {
    let gain = inverted_cone::invcon(float(line, 5), float(line, 6))?;
    let efficiency = 0.0;
    Ok(GainEfficiency { gain, efficiency })
}

pub(crate) fn is_equal(line: &Line) -> bool {
    match line[0] {
        b'l' | b'c' => is_lookup(line),
        b'i' => is_outcome(line, cone(line)),
        _ => false,
    }
}
