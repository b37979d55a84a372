// A wave and its image in the ground.
ghost use Rattle.std.specs.Prelude.{◌≡◌};
ghost use Rattle.reflection.specs.Ground.{image_power, with_image, reflected_of};

use elementary::SineCosine;

// Sine and cosine of an image's phase against its wave, by the reflection's horizontal and vertical phase.
#[derive(Clone, Copy)]
pub struct ReflectedPhase {
    pub horizontal: SineCosine,
    pub vertical: SineCosine,
}

// The power of both: the ground gives the image c of the wave's amplitude, and this phase.
#[tactic(auto, unfolding(single::proofs::Literals::round, single::proofs::Literals::of_bits))]
pub fn image_power(c: f32, phase: f32) -> f32
    ensures { result ≡ image_power c phase }
{
    c * c + 1.0 - 2.0 * c * elementary::cos(phase)
}

// Of an image that lies hwave2, twice the height's phase, below the wave; psi is the reflection's.
#[tactic(auto, unfolding(crate::specs::Ground::with_image))]
pub fn with_image(c: f32, psi: f32, hwave2: f32, q: f32) -> f32
    ensures { result ≡ with_image c psi hwave2 q }
{
    image_power(c, psi - hwave2 * q)
}

// Of an image that lies hwave2 below, as in with_image.
#[tactic(auto, unfolding(crate::specs::Ground::reflected_of))]
pub fn reflected_of(psih: f32, psiv: f32, hwave2: f32, q: f32) -> ReflectedPhase
    ensures { result ≡ reflected_of psih psiv hwave2 q }
{
    ReflectedPhase {
        horizontal: elementary::sin_cos(psih - hwave2 * q),
        vertical: elementary::sin_cos(psiv - hwave2 * q),
    }
}
