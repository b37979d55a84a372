// Replays the oracle's fixed lists (oracle/README.md), each a file in data/, and prints for each how
// many lines were compared and how many differ.
#![tactic(auto)]

mod line;
mod list_antenna;
mod list_deck;
mod list_elementary;
mod list_gains;
mod list_integrals;
mod list_output;
mod list_parameters;

ghost use Rattle.std.specs.Prelude.{◌≡◌, ◌<◌, ◌≤◌, IfOk, length, take};
ghost use Rattle.std.specs.Io.KnownBytes.{Consumes, IsAtEnd};

use line::{Line, MOST_BYTES};
use list_deck::Replay;
use std::io::Read;
use std::rt::Files;
use std::{fs, io};
use vectors::{MOST_LINES, Tally};

// Reads until buf is full or the file ends, and returns how many bytes it put at the start of buf. A
// read may give fewer than asked, so no `for` counts them.
fn read_full<F: Read>(file: &mut F, buf: &mut [u8]) -> io::Result<usize>
    ensures bound { IfOk result (λ n. n ≤ length buf.new) }
    ensures bytes { IfOk result (λ n. Consumes (F.remaining file.old) (F.remaining file.new) (take n buf.new)) }
    ensures end { IfOk result (λ n. n < length buf.new → IsAtEnd (F.remaining file.new)) }
{
    let mut done: usize = 0;
    while done < buf.len() {
        let n = file.read(&mut buf[done..])?;
        if n == 0 {
            break;
        }
        done += n;
    }
    Ok(done)
}

// A last line that is cut off differs.
fn replay<F: Read, E: FnMut(&Line) -> bool>(
    file: &mut F,
    bytes: usize,
    mut is_equal: E,
) -> io::Result<Tally>
    requires bytes_fit { bytes ≤ 830 }
    requires callable { E.IsAlwaysCallable is_equal }
{
    let mut tally = Tally::default();
    for _ in 0..MOST_LINES {
        let mut line = [0u8; MOST_BYTES];
        let n = read_full(file, &mut line[..bytes])?;
        if n == 0 {
            break;
        }
        let equal = is_equal(&line);
        tally = vectors::counted(tally, equal & (n == bytes));
    }
    Ok(tally)
}

fn print_tally(rt: &impl Print, name: &str, tally: Tally) -> io::Result<()> {
    let Tally { compared, differ } = tally;
    println!(rt; "{name} {compared} compared, {differ} differ")
}

// The list's file has its name. A file that is missing, or that can't be opened, has no lines.
fn replay_file<E: FnMut(&Line) -> bool>(
    rt: &(impl Files + Print),
    name: &str,
    bytes: usize,
    is_equal: E,
) -> io::Result<()>
    requires bytes_fit { bytes ≤ 830 }
    requires callable { E.IsAlwaysCallable is_equal }
{
    let tally = match fs::open(rt, name) {
        Ok(mut file) => replay(&mut file, bytes, is_equal)?,
        Err(_) => Tally::default(),
    };
    print_tally(rt, name, tally)
}

// Each list stands twice: to put `wrong_` before a name takes the heap, and with it three more assumed
// contracts of libc; a function of the seven names would have each name three times.
fn main(rt: HostRuntime) -> io::Result<()> {
    replay_file(&rt, "elementary", 21, list_elementary::is_equal)?;
    replay_file(&rt, "integrals", 30, list_integrals::is_equal)?;
    replay_file(&rt, "parameters", 272, list_parameters::is_equal)?;
    replay_file(&rt, "output", 57, list_output::is_equal)?;
    replay_file(&rt, "gains", 158, list_gains::is_equal)?;
    replay_file(&rt, "antenna", 92, list_antenna::is_equal)?;
    let mut deck = Replay::start();
    replay_file(&rt, "deck", MOST_BYTES, |line| deck.is_equal(line))?;
    // Every line of these is wrong in one place.
    replay_file(&rt, "wrong_elementary", 21, list_elementary::is_equal)?;
    replay_file(&rt, "wrong_integrals", 30, list_integrals::is_equal)?;
    replay_file(&rt, "wrong_parameters", 272, list_parameters::is_equal)?;
    replay_file(&rt, "wrong_output", 57, list_output::is_equal)?;
    replay_file(&rt, "wrong_gains", 158, list_gains::is_equal)?;
    replay_file(&rt, "wrong_antenna", 92, list_antenna::is_equal)?;
    let mut deck = Replay::start();
    replay_file(&rt, "wrong_deck", MOST_BYTES, |line| deck.is_equal(line))
}
