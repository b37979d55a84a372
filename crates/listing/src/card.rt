// A line run on the deck, and its text.
ghost use Rattle.std.specs.Prelude.{◌≡◌, ◌+◌, ◌≤◌};
ghost use Rattle.cards.specs.Fields.{fields_refusal};
ghost use Rattle.deck.specs.Run.{line_in};
ghost use Rattle.listing.specs.Written.{HasRoom, Written};
ghost use Rattle.listing.specs.Listing.{type_of, card_rows};
ghost use Rattle.listing.specs.Session.{counted};
ghost use Rattle.listing.specs.Card.{LineListed};

use crate::session::Session;
use crate::writing::Writer;
use cards::Fields;
use deck::CardAnswer;
use table::Table;

// From here on a place prints as stars.
const MOST_LISTED: u32 = 10_000_000;

// vectors counts the same way in u64, and no crate with code is below both: one comparison is not moved.
#[tactic(auto, unfolding(crate::specs::Session::counted))]
fn count(listed: u32) -> u32
    ensures { result ≡ counted listed }
{
    if listed < MOST_LISTED {
        listed + 1
    } else {
        listed
    }
}

fn card_type(line: Option<Fields>) -> i32
    ensures { result ≡ type_of (line_in line) }
{
    line.map_or(0, |fields| fields.kop)
}

// Of an accepted card.
#[tactic(auto, unfolding(cards::specs::Card::card_of), using(crate::proofs::Printed::rows_length, crate::proofs::Entries::back, crate::proofs::Entries::rows_in, crate::proofs::Entries::accepted_rows))]
fn rows(fields: Fields, table: &Table, to: &mut Writer)
    requires accepted { fields_refusal fields ≡ 0 }
    requires room { HasRoom to.old 540 }
    ensures written { Written to.old (card_rows fields table.now) to.new }
    ensures upper_bound { to.new.at ≤ to.old.at + 540 }
{
    let first = fields.first as usize;
    let last = fields.last as usize;
    to.rows(table, first, last);
}

#[tactic(auto, using(crate::proofs::Printed::heading_length))]
pub(crate) fn list_line(
    session: Session,
    line: &[u8],
    table: &mut Table,
    to: &mut Writer,
) -> Session
    requires { HasRoom to.old 554 }
    ensures { LineListed session line.now table.old table.new to.old to.new result }
{
    let listed = count(session.listed);
    let card = card_line::read_line(line);
    let CardAnswer { deck, verdict } = deck::run_entry(session.deck, card, table);
    let number = refusals::verdict_number(verdict);
    to.heading(listed, card_type(card), number);
    // A refused card has no rows.
    if let Some(fields) = card
        && verdict.is_ok()
    {
        rows(fields, table, to);
    }
    Session {
        deck,
        listed,
        held: 0,
    }
}
