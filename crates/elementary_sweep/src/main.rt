// Folds each elementary function's answers over blocks of 65,536 bit patterns and prints a line per
// group of blocks, as the oracle's `sweep` does (oracle/README.md). The arguments: first function,
// last function, first block, number of blocks, blocks in a group.
#![tactic(auto)]

ghost use Rattle.std.specs.Prelude.{◌≡◌, ◌≤◌, ◌<◌};

use std::env::Env;
use std::io;
use std::ops::Range;

// The fold of the answers on the patterns of one block, on from start. The modulus is a prime.
fn fold_block(function: u32, block: u32, start: u64) -> u64
    requires { (block < 65536) × (start < 4294967291) }
    ensures { result < 4294967291 }
{
    let mut h = start;
    for place in 0..65536 {
        let x = vectors::float(block * 65536 + place);
        h = (h * 65599 + elementary_calls::call(function, x) as u64) % 4294967291;
    }
    h
}

fn fold(function: u32, blocks: Range<u32>) -> u64
    requires { blocks.end ≤ 65536 }
{
    let mut h: u64 = 0;
    for block in blocks {
        h = fold_block(function, block, h);
    }
    h
}

fn print_group(rt: &impl Print, function: u32, blocks: Range<u32>) -> io::Result<()>
    requires { (blocks.start ≤ blocks.end) × (blocks.end ≤ 65536) }
{
    let first = blocks.start;
    let count = blocks.end - first;
    let h = fold(function, blocks);
    println!(rt; "{function:02} {first:05} {count:05} {h:08x}")
}

fn print_groups(rt: &impl Print, function: u32, blocks: Range<u32>, group: u32) -> io::Result<()>
    requires { (blocks.end ≤ 65536) × (group ≤ 65536) × (0 < group) }
{
    let Range { start, end } = blocks;
    for first in (start..end).step_by(group as usize) {
        print_group(rt, function, first..end.min(first + group))?;
    }
    Ok(())
}

// A decimal number of at most five digits. A letter b to f counts as a digit 1 to 5, and any other
// byte as 0; a word that is missing or longer is 0. `parse` would refuse such words.
fn number(env: &impl Env, i: usize) -> u32
    ensures { result ≤ 65536 }
{
    let mut word = [0u8; 5];
    let n = env.arg(i, &mut word).unwrap_or(0);
    let mut value: u32 = 0;
    for &b in &word[..n] {
        value = (value * 10 + vectors::digit(b) % 10).min(65536);
    }
    value
}

fn main(rt: HostRuntime) -> io::Result<()> {
    let last = number(&rt, 2);
    let first = number(&rt, 3);
    let end = (first + number(&rt, 4)).min(65536);
    let group = number(&rt, 5);
    if group == 0 {
        return Ok(());
    }
    for function in number(&rt, 1)..=last {
        print_groups(&rt, function, first..end, group)?;
    }
    Ok(())
}
