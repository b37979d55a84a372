// The texts of a listing's calls, one after another, to standard output.
ghost use Rattle.std.specs.Prelude.{◌≤◌};

use listing::Session;
use std::io::{Result, Stdout, Write};

// Where the piece of `size` bytes from `from` on ends.
fn piece_end(from: usize, size: usize, len: usize) -> usize
    requires { from ≤ len }
    ensures { (from ≤ result) × (result ≤ len) }
{
    from + size.min(len - from)
}

fn print_start(mut to: Stdout, out: &[u8], end: usize) -> Result<()> {
    if let Some(text) = out.get(..end) {
        to.write_all(text)?;
    }
    Ok(())
}

// Each step takes a byte at least until the input is used up, so as many steps as bytes suffice. The
// buffers are the caller's, as those of `step` and `finish` are.
#[tactic(auto, using(crate::proofs::Loop::within_input))]
pub(crate) fn print_listing(
    to: Stdout,
    start: Session,
    input: &[u8],
    size: usize,
    line: &mut [u8],
    table: &mut [f32],
    out: &mut [u8],
) -> Result<()> {
    let mut s = start;
    let mut from: usize = 0;
    for _ in 0..input.len() {
        let end = piece_end(from, size, input.len());
        let r = listing::step(s, line, &input[from..end], table, out, 0);
        print_start(to, out, r.at)?;
        s = r.session;
        from += r.used;
    }
    let end = listing::finish(s, line, table, out, 0);
    print_start(to, out, end)
}
