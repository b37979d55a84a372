// Absolute value, sign, `max(0.00001)`, `as i32`, `powi(2)` and `powi(4)`.
#![tactic(auto)]

ghost use Rattle.std.specs.Prelude.{◌≡◌};
ghost use Rattle.single.specs.Single.{is_negative};
ghost use Rattle.basic.specs.Basic.{absolute, max_small, cut_toward, square, fourth};

#[tactic(auto, using(crate::proofs::Absolute::without_sign))]
pub fn abs(x: f32) -> f32
    ensures { result ≡ absolute x }
{
    x.abs()
}

// The sign bit, of a zero too; false for NaN.
#[tactic(auto, using(crate::proofs::Sign::sign_is, crate::proofs::Sign::nan_is))]
pub fn is_negative(x: f32) -> bool
    ensures { result ≡ is_negative x }
{
    !x.is_nan() && x.is_sign_negative()
}

// `max(0.00001)`.
pub fn max_small(x: f32) -> f32
    ensures { result ≡ max_small x }
{
    x.max(0.00001)
}

// `as i32`.
#[tactic(auto, unfolding(crate::specs::Basic::cut_toward))]
pub fn cut(x: f32) -> i32
    ensures { result ≡ cut_toward x }
{
    std::num::saturating_f32_to_i32(x)
}

#[tactic(auto, unfolding(crate::specs::Basic::square))]
pub fn powi2(y: f32) -> f32
    ensures { result ≡ square y }
{
    y * y
}

#[tactic(auto, unfolding(crate::specs::Basic::fourth, crate::specs::Basic::square))]
pub fn powi4(y: f32) -> f32
    ensures { result ≡ fourth y }
{
    let s = y * y;
    s * s
}
