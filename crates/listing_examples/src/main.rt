// The listings of small inputs: in pieces of several sizes, on a fresh deck and on nearly full ones.
#![tactic(auto)]

mod printing;

use deck::Deck;
use listing::{MOST_HELD, Session};
use std::io::{Result, Stdout};
use table::TABLE_LENGTH;

// Of a listing's text, as one call writes it.
const TEXT: usize = 4096;

// A deck that has refused so many cards.
fn session_after(refused: u32) -> Session {
    let deck = Deck {
        refused,
        ..deck::fresh()
    };
    Session {
        deck,
        listed: refused,
        ..listing::start()
    }
}

// One listing, in pieces of `size` bytes.
fn list(to: Stdout, start: Session, input: &[u8], size: usize) -> Result<()> {
    let mut line = [0u8; MOST_HELD];
    let mut table = [0.0f32; TABLE_LENGTH];
    let mut out = [0u8; TEXT];
    printing::print_listing(to, start, input, size, &mut line, &mut table, &mut out)
}

fn list_in_pieces(to: Stdout, cards: &[u8]) -> Result<()> {
    for size in [1, 50, 4096] {
        list(to, listing::start(), cards, size)?;
    }
    Ok(())
}

fn list_after_refusals(to: Stdout, cards: &[u8]) -> Result<()> {
    for refused in [999_998, 999_999, 9_999_999] {
        list(to, session_after(refused), cards, 50)?;
    }
    Ok(())
}

fn list_all(to: Stdout, cards: &[u8]) -> Result<()> {
    println!(to; "no input")?;
    list(to, listing::start(), b"", 1)?;
    println!(to; "two line feeds, then a byte")?;
    list(to, listing::start(), b"\n\nx", 1)?;
    println!(to; "two cards, the last without its line feed, in pieces of 1, 50 and 4,096 bytes")?;
    list_in_pieces(to, cards)?;
    println!(to; "after 999,998 and 999,999 refused cards, and 9,999,999")?;
    list_after_refusals(to, cards)
}

fn main(rt: HostRuntime) -> Result<()> {
    // Document 01's two cards.
    let cards: &[u8] =
        b"  2  2  3     0.0000     4.0000     0.0100    -0.5000     0.0000     0.0000     0.0000     0.0000     0.0000     0.0000\n  1  2  3     0.0000     4.0000     0.0100     0.0000   100.0000    20.0000     0.0000     0.0000     0.0000     0.0000";
    list_all(rt.stdout(), cards)
}
