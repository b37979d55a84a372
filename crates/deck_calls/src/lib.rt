#![tactic(auto)]
// A card run on a deck through C, for the benchmark.
ghost use Rattle.std.specs.Prelude.{◌≡◌};
ghost use Rattle.deck_calls.specs.Calls.{fields_of, fill_number, filled};

use cards::Fields;
use deck::Deck;
use parameters::Model;
use refusals::verdict_number;

const SLOTS: usize = 20;

// The verdict, on a deck with this height and no cards yet. Without 20 slots it is 9 or 7.
#[tactic(auto, unfolding(crate::specs::Calls::fill_number, crate::specs::Calls::filled))]
#[unsafe(no_mangle)]
pub extern "C" fn deck_fill(
    kop: i32,
    first: i32,
    last: i32,
    toaz: f32,
    slots: &[f32],
    model: i32,
    height: f32,
    table: &mut [f32],
) -> u32
    ensures value { result ≡ fill_number (fields_of kop first last toaz slots.now model) height table.old }
    ensures table_after { table.new ≡ filled (fields_of kop first last toaz slots.now model) height table.old }
{
    let Some(slots) = slots.as_array::<SLOTS>() else {
        table::clear_refused(table);
        return limits::length_refusal(height).number();
    };
    let fields = Fields {
        kop,
        first,
        last,
        toaz,
        slots: *slots,
        model: Model::from(model),
    };
    let empty = Deck {
        height,
        accepted: 0,
        refused: 0,
    };
    verdict_number(deck::run_card(empty, fields, table).verdict)
}
