// The deck's examples: a card removed from a deck, the curtain's elements per bay, document 01's two
// cards, lookups by a card's range, and presets at the ends of the counts, the height and the table's
// length.
#![tactic(auto)]

mod elements;
mod example_cards;
mod listing;
mod lookups;
mod presets;
mod removal;
mod tables;
mod text;

use std::io;

fn main(rt: HostRuntime) -> io::Result<()> {
    removal::print_removals(&rt)?;
    elements::print_elements(&rt)?;
    listing::print_listings(&rt)?;
    lookups::print_lookups(&rt)?;
    presets::print_presets(&rt)
}
