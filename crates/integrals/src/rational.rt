// The rational form, for arguments from 1.
ghost use Rattle.std.specs.Prelude.{◌≡◌};
ghost use Rattle.integrals.specs.Rational.{rational_of};

#[derive(Clone, Copy)]
pub struct Integrals {
    pub ci: f32,
    pub si: f32,
}

#[tactic(auto, unfolding(crate::specs::Rational::rational_of, single::proofs::Literals::round, single::proofs::Literals::of_bits))]
pub(crate) fn rational(x: f32) -> Integrals
    ensures { result ≡ rational_of x }
{
    let x2 = x * x;
    let both = elementary::sin_cos(x);
    let t = both.cosine;
    let s = both.sine;
    let g0 = ((((x2 + 48.196927) * x2 + 482.485984) * x2 + 1114.978885) * x2 + 449.690326) * x2;
    let g = ((((x2 + 42.252855) * x2 + 302.757865) * x2 + 352.018498) * x2 + 21.821899) / g0;
    let f0 = ((((x2 + 40.021433) * x2 + 322.624911) * x2 + 570.23628) * x2 + 157.105423) * x;
    let f = ((((x2 + 38.027264) * x2 + 265.187033) * x2 + 335.67732) * x2 + 38.102495) / f0;
    Integrals {
        ci: f * s - g * t,
        si: 1.5708 - f * t - g * s,
    }
}
