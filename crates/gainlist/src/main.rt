// Cards from standard input, their listing to standard output: what is written is what listing's
// `step` and `finish` give, in turn.
#![tactic(auto)]

ghost use Rattle.std.specs.Prelude.{◌≡◌, ◌+◌, ◌≤◌, ◌⊎◌, IfOk};
ghost use Rattle.listing.specs.Sizes.{most_text};

use listing::{MOST_HELD, ROOM, Session, Stepped};
use std::io::{ErrorKind, Read, Result, Stderr, Stdin, Stdout, Write};
use std::process::ExitCode;
use table::{TABLE_LENGTH, Table};

// Of the input that is read at once, and of the text that is written at once.
const PIECE: usize = 65536;

// What each step works on: a line's bytes, a card's table, and text that is not written yet.
#[derive(Drop)]
struct Buffers {
    line: [u8; MOST_HELD],
    table: Table,
    out: [u8; PIECE],
}

// Text not written yet ends at `at`. The next step has room.
#[derive(Clone, Copy)]
struct State {
    session: Session,
    at: usize,
    ghost room: { at + most_text ≤ 65536 },
}

fn all_written(session: Session) -> State
    ensures { result.at ≡ 0 }
{
    State { session, at: 0 }
}

// So that the next step has room.
fn flush_full(mut to: Stdout, stepped: Stepped, out: &[u8; PIECE]) -> Result<State>
    requires { stepped.at ≤ 65536 }
    ensures { IfOk result (λ s. (s.at ≡ 0) ⊎ (s.at ≡ stepped.at)) }
{
    let Stepped { session, at, .. } = stepped;
    if at <= PIECE - ROOM {
        return Ok(State { session, at });
    }
    to.write_all(&out[..at])?;
    Ok(all_written(session))
}

// The whole piece: lines that end in it are listed and their text is written, the rest is held. A
// step takes as many bytes as a line has, so no `for` counts them.
fn list_piece(
    mut to: Stdout,
    session: Session,
    buffers: &mut Buffers,
    piece: &[u8],
) -> Result<Session> {
    let mut s = all_written(session);
    let mut used: usize = 0;
    while used < piece.len() {
        let r = listing::step(
            s.session,
            &mut buffers.line,
            &piece[used..],
            &mut buffers.table,
            &mut buffers.out,
            s.at,
        );
        s = flush_full(to, r, &buffers.out)?;
        used += r.used;
    }
    to.write_all(&buffers.out[..s.at])?;
    Ok(s.session)
}

// To the end of the input. Text is written before the next read, so that who sends cards one by one
// is answered. The reads are counted so that the loop is known to end.
fn list_all(
    mut from: Stdin,
    to: Stdout,
    buffers: &mut Buffers,
    input: &mut [u8],
) -> Result<Session> {
    let mut session = listing::start();
    for _ in 0..u64::MAX {
        let n = from.read(input)?;
        if n == 0 {
            break;
        }
        session = list_piece(to, session, buffers, &input[..n])?;
    }
    Ok(session)
}

// The counts of a part would look like those of the whole: none are written where a read failed.
fn run(rt: &HostRuntime, buffers: &mut Buffers, input: &mut [u8]) -> Result<()> {
    let mut to = rt.stdout();
    let session = list_all(rt.stdin(), to, buffers, input)?;
    let end = listing::finish(
        session,
        &buffers.line,
        &mut buffers.table,
        &mut buffers.out,
        0,
    );
    to.write_all(&buffers.out[..end])
}

// Where nobody reads on it says nothing, and ends with the status of a program that SIGPIPE ended.
fn report_failure(mut errors: Stderr, kind: ErrorKind) -> ExitCode {
    if kind == ErrorKind::BrokenPipe {
        return ExitCode::from(141);
    }
    // There is nobody to tell where this fails too.
    let _ = errors.write_all(b"gainlist: a read or write failed\n");
    ExitCode::FAILURE
}

fn main(rt: HostRuntime) -> ExitCode {
    let mut buffers = Buffers {
        line: [0u8; MOST_HELD],
        table: [0.0f32; TABLE_LENGTH],
        out: [0u8; PIECE],
    };
    let mut input = [0u8; PIECE];
    match run(&rt, &mut buffers, &mut input) {
        Ok(()) => ExitCode::SUCCESS,
        Err(e) => report_failure(rt.stderr(), e.kind()),
    }
}
