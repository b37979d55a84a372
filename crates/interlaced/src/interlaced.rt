// The terminated interlaced rhombic, type 10.
ghost use Rattle.std.specs.Prelude.{◌≡◌};
ghost use Rattle.interlaced.specs.Interlaced.{offset_of, y_of, hk_of, interlaced_of};

use angles::Elevation;
use elementary::SineCosine;
use reflection::{Ground, reflected_of};
use rhombics::{Legs, elfac};

// The second rhombic against the first, at a MHz. sg and cg are no SineCosine: they are quotients.
#[derive(Clone, Copy)]
pub struct Offset {
    pub ss: f32,
    pub d: f32,
    pub sg: f32,
    pub cg: f32,
    pub htwave: f32,
    pub wavenumber: f32,
}

#[tactic(auto, unfolding(crate::specs::Interlaced::offset_of, single::proofs::Literals::round, single::proofs::Literals::of_bits))]
pub fn offset_of(ht: f32, ss: f32, wave: f32) -> Offset
    ensures { result ≡ offset_of ht ss wave }
{
    let d = root::sqrt(ss * ss + ht * ht);
    Offset {
        ss,
        d,
        sg: ht / d,
        cg: ss / d,
        htwave: 6.283185308 * ht / wave,
        wavenumber: 6.283185308 / wave,
    }
}

// The second rhombic's phase.
#[tactic(auto, unfolding(crate::specs::Interlaced::y_of))]
fn y_of(offset: Offset, e: Elevation, cb: f32) -> f32
    ensures { result ≡ y_of offset e cb }
{
    let Offset {
        ss,
        d,
        sg,
        cg,
        wavenumber,
        ..
    } = offset;
    let Elevation { t, q, .. } = e;
    wavenumber * (ss - d * (q * sg + t * cg * cb))
}

// The power of both rhombics and their images, the sines and cosines of their phases given.
#[tactic(auto, unfolding(crate::specs::Interlaced::h1v_of, crate::specs::Interlaced::h2_of, crate::specs::Interlaced::hk_of, single::proofs::Literals::round, single::proofs::Literals::of_bits))]
fn hk_of(c: f32, yh: SineCosine, y: SineCosine, z: SineCosine) -> f32
    ensures { result ≡ hk_of c yh y z }
{
    let SineCosine {
        sine: sin_yh,
        cosine: cos_yh,
    } = yh;
    let SineCosine {
        sine: sin_y,
        cosine: cos_y,
    } = y;
    let SineCosine {
        sine: sin_z,
        cosine: cos_z,
    } = z;
    let h1 = 1.0 + cos_y - c * (cos_yh * (1.0 + cos_z) - sin_yh * sin_z);
    let h2 = -sin_y - c * (-sin_yh * (1.0 + cos_z) - cos_yh * sin_z);
    h1 * h1 + h2 * h2
}

// `rain`, before it is taken to dB.
#[tactic(auto, unfolding(crate::specs::Interlaced::z_of, crate::specs::Interlaced::interlaced_of, single::proofs::Literals::round, single::proofs::Literals::of_bits))]
pub fn interlaced_rain(legs: Legs, offset: Offset, e: Elevation, earth: Ground) -> f32
    ensures { result ≡ interlaced_of legs offset e earth }
{
    let Legs {
        sb,
        cb,
        srhi,
        hwave,
        ..
    } = legs;
    let Elevation { t, q, r, .. } = e;
    let Ground { ch, cv, psih, psiv } = earth;
    let factor = elfac(legs, e);
    let elfac2 = factor * factor;
    let y = y_of(offset, e, cb);
    let z = y - 2.0 * offset.htwave * q;
    let of_y = elementary::sin_cos(y);
    let of_z = elementary::sin_cos(z);
    let images = reflected_of(psih, psiv, 2.0 * hwave, q);
    let hk = hk_of(ch, images.horizontal, of_y, of_z);
    let brk = cb - srhi * t;
    let hrain = elfac2 * brk * brk * hk;
    let vk = hk_of(cv, images.vertical, of_y, of_z);
    let brv = sb * sb * r;
    let vrain = elfac2 * brv * vk;
    (hrain + vrain) * 0.8
}
