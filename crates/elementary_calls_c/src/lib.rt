// `elementary_map` through C, for the benchmark.
#![tactic(auto)]

ghost use Rattle.std.specs.Prelude.{◌≡◌};
ghost use Rattle.elementary_calls.specs.Calls.{map_number, mapped};

// The answers of all of xs into out. 7 and nothing written where their lengths differ, else 0.
#[unsafe(no_mangle)]
pub extern "C" fn elementary_map(function: u32, xs: &[f32], out: &mut [u32]) -> u32
    ensures value { result ≡ map_number xs.now out.old }
    ensures out_after { out.new ≡ mapped function xs.now out.old }
{
    elementary_calls::elementary_map(function, xs, out)
}
