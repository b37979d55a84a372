// Arctangent, by three ranges of its magnitude, and arcsine.
#![tactic(auto)]

ghost use Rattle.std.specs.Prelude.{◌≡◌};
ghost use Rattle.arctangent.specs.Arctangent.{from_base, arctangent_of, arctangent, arcsine};

use basic::{abs, is_negative};

#[tactic(auto, unfolding(crate::specs::Arctangent::from_base, single::proofs::Literals::round, single::proofs::Literals::of_bits))]
fn from_base(base: f32, w: f32) -> f32
    ensures { result ≡ from_base base w }
{
    let z = w * w;
    base + ((((0.0805374449538 * z - 0.138776856032) * z + 0.199777106478) * z - 0.333329491539)
        * z
        * w
        + w)
}

#[tactic(auto, unfolding(crate::specs::Arctangent::arctangent_of, single::proofs::Literals::round, single::proofs::Literals::of_bits))]
fn arctangent_of(a: f32) -> f32
    ensures { result ≡ arctangent_of a }
{
    if a > 2.4142135 {
        from_base(1.5707964, -1.0 / a)
    } else if a > 0.41421357 {
        from_base(0.7853982, (a - 1.0) / (a + 1.0))
    } else {
        from_base(0.0, a)
    }
}

#[tactic(auto, unfolding(crate::specs::Arctangent::arctangent, single::proofs::Literals::neg), using(basic::proofs::Absolute::absolute_minus, basic::proofs::Absolute::absolute_plus))]
pub fn atan(x: f32) -> f32
    ensures { result ≡ arctangent x }
{
    if is_negative(x) {
        -arctangent_of(-x)
    } else {
        arctangent_of(x)
    }
}

#[tactic(auto, unfolding(crate::specs::Arctangent::arcsine, single::proofs::Literals::round, single::proofs::Literals::of_bits))]
pub fn asin(y: f32) -> f32
    ensures { result ≡ arcsine y }
{
    if abs(y) > 1.0 {
        f32::NAN
    } else {
        atan(y / root::sqrt(1.0 - y * y))
    }
}
