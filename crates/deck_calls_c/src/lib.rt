// `deck_fill` through C, for the benchmark.
#![tactic(auto)]

ghost use Rattle.std.specs.Prelude.{◌≡◌};
ghost use Rattle.deck_calls.specs.Calls.{fields_of, fill_number, filled};

#[unsafe(no_mangle)]
pub extern "C" fn deck_fill(
    kop: i32,
    first: i32,
    last: i32,
    toaz: f32,
    slots: &[f32],
    model: i32,
    height: f32,
    table: &mut [f32],
) -> u32
    ensures value { result ≡ fill_number (fields_of kop first last toaz slots.now model) height table.old }
    ensures table_after { table.new ≡ filled (fields_of kop first last toaz slots.now model) height table.old }
{
    deck_calls::deck_fill(kop, first, last, toaz, slots, model, height, table)
}
