// The square root of an f32: document 01 section 1, Root.
#![tactic(auto)]

ghost use Rattle.std.specs.Prelude.{◌≡◌};
ghost use Rattle.root.specs.Root.{root};

#[tactic(auto, using(crate::proofs::Rounded::sqrt_is))]
pub fn sqrt(y: f32) -> f32
    ensures { result ≡ root y }
{
    y.sqrt()
}
