// Hundredths of an f32, rounded from its exact value.
ghost use Rattle.std.specs.Prelude.{◌≡◌, ◌*◌, ◌^◌, ◌≤◌, true, false, from_bits};
ghost use Rattle.std.specs.Float.{binary32};
ghost use Rattle.std.specs.Float.Ieee.{lt};
ghost use Rattle.single.specs.Single.{is_negative};
ghost use Rattle.output.specs.Hundredths.{hundredths_of, size_of};

// Three cases, so no Option.
#[derive(Clone, Copy)]
pub enum Hundredths {
    NotANumber,
    // Infinite, or from 2^56 on in magnitude.
    Over,
    Whole(i64),
}

// 200 * x is exact in f64; its whole part counts the halves in 100 * x.
#[tactic(auto, using(crate::proofs::Exact::counted))]
fn rounded(x: f32) -> u64
    requires sign { is_negative x ≡ false }
    requires below { lt x (from_bits binary32 0x5b800000) ≡ true }
    ensures { (result ≡ size_of x) × (result ≤ 100 * 2 ^ 56) }
{
    let y = x as f64 * 200.0;
    let halves = std::num::truncating_f64_to_u64(y);
    (halves + 1) / 2
}

// The sign is put on after the rounding, so that halves go away from zero.
#[tactic(auto, using(crate::proofs::Answers::tests))]
pub fn to_hundredths(x: f32) -> Hundredths
    ensures { result ≡ hundredths_of x }
{
    if x.is_nan() {
        return Hundredths::NotANumber;
    }
    let magnitude = x.abs();
    if magnitude < 72057594037927936.0 {
        let n = rounded(magnitude) as i64;
        return Hundredths::Whole(if x.is_sign_negative() { -n } else { n });
    }
    Hundredths::Over
}
