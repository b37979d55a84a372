// The entire cosine integral Cin, which the radiation resistances take.
ghost use Rattle.std.specs.Prelude.{◌≡◌};
ghost use Rattle.integrals.specs.Cin.{cin_of};

// By the cosine integral `ci` of the same x. The formulas have Euler's constant to three and to six
// decimals.
#[tactic(auto, unfolding(crate::specs::Cin::cin_of))]
pub fn cin_of(euler: f32, x: f32, ci: f32) -> f32
    ensures { result ≡ cin_of euler x ci }
{
    euler + elementary::ln(x) - ci
}
