// Which numbers are within the limits.
ghost use Rattle.std.specs.Prelude.{◌≡◌};
ghost use Rattle.std.specs.Float.Ieee.Scale.{finite};
ghost use Rattle.limits.specs.Tests.{outside, any_outside};

pub const MOST: f32 = 1000.0;

#[tactic(auto, using(crate::proofs::Finite::finite_is))]
pub fn is_finite(x: f32) -> bool
    ensures { result ≡ finite x }
{
    x.is_finite()
}

// NaN is not within.
#[tactic(auto, unfolding(crate::specs::Tests::outside, single::proofs::Literals::round, single::proofs::Literals::of_bits))]
fn is_outside(x: f32) -> bool
    ensures { result ≡ outside x }
{
    !(elementary::abs(x) <= MOST)
}

// A loop: with the library's `any` the proof did not close (tried).
#[tactic(auto, using(crate::proofs::Outside::found, crate::proofs::Outside::passed, crate::proofs::Outside::ended))]
pub fn any_outside(numbers: &[f32]) -> bool
    ensures { result ≡ any_outside numbers.now }
{
    for x in numbers {
        if is_outside(*x) {
            return true;
        }
    }
    false
}
