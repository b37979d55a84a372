// The elementary functions by number, for the oracle's lists, its sweeps and the benchmark.
#![tactic(auto)]

ghost use Rattle.std.specs.Prelude.{◌≡◌};
ghost use Rattle.elementary_calls.specs.Calls.{function_of, answer, answer_by, map_number, mapped};

use vectors::bits;

// Sine and cosine also as found at once.
#[derive(Clone, Copy)]
enum Function {
    Abs,
    MaxSmall,
    Cut,
    Powi2,
    Powi4,
    Sin,
    Cos,
    SineOfBoth,
    CosineOfBoth,
    Tan,
    Atan,
    Asin,
    Ln,
    Log10,
    Root,
}

// From 14 on it is the root.
impl From<u32> for Function {
    fn from(number: u32) -> Function
        ensures { result ≡ function_of number }
    {
        match number {
            0 => Function::Abs,
            1 => Function::MaxSmall,
            2 => Function::Cut,
            3 => Function::Powi2,
            4 => Function::Powi4,
            5 => Function::Sin,
            6 => Function::Cos,
            7 => Function::SineOfBoth,
            8 => Function::CosineOfBoth,
            9 => Function::Tan,
            10 => Function::Atan,
            11 => Function::Asin,
            12 => Function::Ln,
            13 => Function::Log10,
            _ => Function::Root,
        }
    }
}

// The bits of the function's answer, any NaN as 7fc00000.
fn answer(function: Function, x: f32) -> u32
    ensures { result ≡ answer_by function x }
{
    match function {
        Function::Abs => bits(elementary::abs(x)),
        Function::MaxSmall => bits(elementary::max_small(x)),
        Function::Cut => elementary::cut(x).cast_unsigned(),
        Function::Powi2 => bits(elementary::powi2(x)),
        Function::Powi4 => bits(elementary::powi4(x)),
        Function::Sin => bits(elementary::sin(x)),
        Function::Cos => bits(elementary::cos(x)),
        Function::SineOfBoth => bits(elementary::sin_cos(x).sine),
        Function::CosineOfBoth => bits(elementary::sin_cos(x).cosine),
        Function::Tan => bits(elementary::tan(x)),
        Function::Atan => bits(elementary::atan(x)),
        Function::Asin => bits(elementary::asin(x)),
        Function::Ln => bits(elementary::ln(x)),
        Function::Log10 => bits(elementary::log10(x)),
        Function::Root => bits(root::sqrt(x)),
    }
}

// The same, of the function with a number.
#[tactic(auto, using(crate::proofs::Functions::answer_is))]
pub fn call(function: u32, x: f32) -> u32
    ensures { result ≡ answer function x }
{
    answer(Function::from(function), x)
}

// Through C, for the benchmark: the answers of all of xs into out. 7 and nothing written where
// their lengths differ, else 0: by its number, as this crate has no refusal but this.
#[unsafe(no_mangle)]
pub extern "C" fn elementary_map(function: u32, xs: &[f32], out: &mut [u32]) -> u32
    ensures value { result ≡ map_number xs.now out.old }
    ensures out_after { out.new ≡ mapped function xs.now out.old }
{
    if xs.len() != out.len() {
        return 7;
    }
    let function = Function::from(function);
    // By index: with a zip nothing is known of what was written (tried; an adapter of iter_mut).
    for i in 0..xs.len() {
        out[i] = answer(function, xs[i]);
    }
    0
}
