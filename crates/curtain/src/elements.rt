// The elements of a bay: their cosines and sines, and the sums over them.
ghost use Rattle.std.specs.Prelude.{◌≡◌};
ghost use Rattle.curtain.specs.Elements.{waves_of, plus, magnitude_of, sums_of, field_of};

use crate::element_count::ElementCount;
use angles::PI;
use reflection::Ground;

// CA and SA of the elements; the rest of the ten stay 0. Two arrays, as document 01 asks for them. How
// many are summed is the card's, and stays beside them as in the definitions.
#[derive(Clone, Copy)]
pub(crate) struct Waves {
    ca: [f32; 10],
    sa: [f32; 10],
}

#[derive(Clone, Copy)]
struct Sums {
    real: f32,
    imag: f32,
}

// Of the horizontal and of the vertical part.
#[derive(Clone, Copy)]
struct BothSums {
    h: Sums,
    v: Sums,
}

// The horizontal and the vertical field.
#[derive(Clone, Copy)]
pub(crate) struct EhEv {
    pub eh: f32,
    pub ev: f32,
}

// Written where they are returned: a copy of the arrays costs time.
#[tactic(auto, unfolding(crate::specs::Elements::waves_of, crate::specs::Elements::filled, single::proofs::Literals::round, single::proofs::Literals::of_bits))]
pub(crate) fn element_waves(count: ElementCount, q: f32, h1: f32, dz: f32) -> Waves
    ensures { result ≡ waves_of count.m q h1 dz }
{
    let factor = 2.0 * PI * q;
    let mut waves = Waves {
        ca: [0.0f32; 10],
        sa: [0.0f32; 10],
    };
    for j in 0..count.m {
        let k = j as u16;
        let both = elementary::sin_cos(factor * (h1 + k as f32 * dz));
        waves.ca[j] = both.cosine;
        waves.sa[j] = both.sine;
    }
    waves
}

impl Sums {
    #[tactic(auto, unfolding(crate::specs::Elements::magnitude_of))]
    fn magnitude(self) -> f32
        ensures { result ≡ magnitude_of self }
    {
        root::sqrt(self.real * self.real + self.imag * self.imag)
    }
}

// With the real parts ch and cv and the imaginary parts ph and pv of the reflections. One loop for
// both: two took longer than the Rust. A line for each sum: with a method for what an element adds, a
// slip could only be planted in both fields at once, and one in a single sum was refused for its form
// alone (tried).
#[tactic(auto, unfolding(crate::specs::Elements::sums_from, crate::specs::Elements::plus, single::proofs::Literals::round, single::proofs::Literals::of_bits))]
fn element_sums(count: ElementCount, waves: Waves, ch: f32, ph: f32, cv: f32, pv: f32) -> BothSums
    ensures { (result.h ≡ sums_of count.m waves ch ph) × (result.v ≡ sums_of count.m waves cv pv) }
{
    let mut hreal = 0.0f32;
    let mut himg = 0.0f32;
    let mut vreal = 0.0f32;
    let mut vimg = 0.0f32;
    for j in 0..count.m {
        let a = waves.ca[j];
        let b = waves.sa[j];
        hreal = hreal + (a * (1.0 + ch) + ph * b);
        himg = himg + (b * (1.0 - ch) + ph * a);
        vreal = vreal + (a * (1.0 + cv) + pv * b);
        vimg = vimg + (b * (1.0 - cv) + pv * a);
    }
    BothSums {
        h: Sums {
            real: hreal,
            imag: himg,
        },
        v: Sums {
            real: vreal,
            imag: vimg,
        },
    }
}

// `before_h` and `before_v` times the roots over the elements, with the ground's reflections.
#[tactic(auto, unfolding(crate::specs::Elements::field_of))]
pub(crate) fn fields(
    before_h: f32,
    before_v: f32,
    count: ElementCount,
    waves: Waves,
    earth: Ground,
) -> EhEv
    ensures { (result.eh ≡ field_of before_h count.m waves earth.ch earth.psih) × (result.ev ≡ field_of before_v count.m waves earth.cv earth.psiv) }
{
    let Ground { ch, psih, cv, psiv } = earth;
    let h = elementary::sin_cos(psih);
    let v = elementary::sin_cos(psiv);
    let s = element_sums(
        count,
        waves,
        -ch * h.cosine,
        -ch * h.sine,
        -cv * v.cosine,
        -cv * v.sine,
    );
    EhEv {
        eh: before_h * s.h.magnitude(),
        ev: before_v * s.v.magnitude(),
    }
}
