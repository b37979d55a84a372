// The listing of an input that comes in pieces of any size.
ghost use Rattle.std.specs.Prelude.{◌≡◌};
ghost use Rattle.listing.specs.Session.{start_of, is_ready};
ghost use Rattle.listing.specs.Steps.{StepDone, FinishDone};

use crate::card::list_line;
use crate::gathering::{Gatherer, MOST_HELD, held_in};
use crate::writing::Writer;
use deck::Deck;
use table::TABLE_LENGTH;

// 14 bytes of a card's first line, 18 of each of its 30 rows, 15 of the counts.
pub const ROOM: usize = 569;

// `listed` cards so far; `held` bytes of a line that isn't whole yet, in a buffer lent to each call.
#[derive(Clone, Copy)]
pub struct Session {
    pub deck: Deck,
    pub listed: u32,
    pub held: usize,
}

// `used` bytes of the piece were taken; the text ends at `at`.
#[derive(Clone, Copy)]
pub struct Stepped {
    pub session: Session,
    pub used: usize,
    pub at: usize,
}

pub fn start() -> Session
    ensures { result ≡ start_of }
{
    Session {
        deck: deck::fresh(),
        listed: 0,
        held: 0,
    }
}

// The lengths, and room for the longest text. Each call then takes the arrays itself, which are there:
// `step` writes its line, and `finish` only reads it.
#[tactic(auto, unfolding(crate::specs::Session::is_ready))]
fn is_ready(line: &[u8], table: &[f32], out: &[u8], at: usize) -> bool
    ensures { result ≡ is_ready line.now table.now out.now at }
{
    line.len() == MOST_HELD && table::is_table(table) && out.len() >= ROOM && at <= out.len() - ROOM
}

// At most one line of the piece is taken, run and written. Nothing is where the buffers
// aren't ready.
pub fn step(
    session: Session,
    line: &mut [u8],
    piece: &[u8],
    table: &mut [f32],
    out: &mut [u8],
    at: usize,
) -> Stepped
    ensures { StepDone session line.old piece.now table.old out.old at line.new table.new out.new result }
{
    if !is_ready(line, table, out, at) {
        return Stepped {
            session,
            used: 0,
            at,
        };
    }
    let buffer = line.as_mut_array::<MOST_HELD>().unwrap();
    let cells = table.as_mut_array::<TABLE_LENGTH>().unwrap();
    let mut gatherer = Gatherer {
        line: buffer,
        held: held_in(session.held),
    };
    let end = gatherer.gather(piece);
    let held = gatherer.held;
    let Some(used) = end else {
        return Stepped {
            session: Session { held, ..session },
            used: piece.len(),
            at,
        };
    };
    let mut to = Writer { out, at };
    let next = list_line(session, &line[..held], cells, &mut to);
    Stepped {
        session: next,
        used,
        at: to.at,
    }
}

// The input has ended: a line whose line feed is missing, then the counts. Nothing is written where
// the buffers aren't ready: the answer is then `at`.
pub fn finish(session: Session, line: &[u8], table: &mut [f32], out: &mut [u8], at: usize) -> usize
    ensures { FinishDone session line.now table.old out.old at table.new out.new result }
{
    if !is_ready(line, table, out, at) {
        return at;
    }
    let buffer = line.as_array::<MOST_HELD>().unwrap();
    let cells = table.as_mut_array::<TABLE_LENGTH>().unwrap();
    let held = held_in(session.held);
    let mut to = Writer { out, at };
    if held == 0 {
        to.counts(session.deck);
        return to.at;
    }
    let last = list_line(session, &buffer[..held], cells, &mut to);
    to.counts(last.deck);
    to.at
}
