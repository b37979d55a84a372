// Where a lookup reads: two rows, two columns and the fractions between them.
ghost use Rattle.std.specs.Prelude.{false, ◌≡◌, ◌^◌};
ghost use Rattle.single.proofs.Magnitude.{Mag};
ghost use Rattle.elementary.specs.Basic.{cut_toward};
ghost use Rattle.limits.specs.Tests.{outside};
ghost use Rattle.antenna.specs.Places.{place_of};

const R2D: f32 = 57.295779513;

// The Rust's names. Rows and columns count from 1.
#[derive(Clone, Copy)]
pub(crate) struct Place {
    pub i: usize,
    pub ip1: usize,
    pub xfmc: f32,
    pub j: usize,
    pub jp1: usize,
    pub xdelta: f32,
}

// `as i32`: from 1 up by the digits and the exponent's field, as trigonometric's whole_part. By the
// library's truncation a lookup took a fifth longer.
#[tactic(auto, unfolding(elementary::specs::Basic::cut_toward), using(single::proofs::Magnitude::mag_no_nan, single::proofs::Sign::sign_bit, basic::proofs::WholePart::whole_below, basic::proofs::WholePart::field_below, basic::proofs::WholePart::whole_digits))]
fn cut(x: f32) -> i32
    requires { Mag (2 ^ 21) x }
    ensures { result ≡ cut_toward x }
{
    let b = f32::to_bits(x);
    if 0x3f80_0000 <= b && b < 0x8000_0000 {
        ((8388608 + b % 8388608) >> (150 - b / 8388608)) as i32
    } else {
        elementary::cut(x)
    }
}

// The indices are clamped, the fractions are not.
#[tactic(auto, unfolding(single::proofs::Literals::round, single::proofs::Literals::of_bits, crate::specs::Places::place_of), using(crate::proofs::Clamps::clamped_is, crate::proofs::Clamps::next_is, crate::proofs::Cuts::cut_kept, crate::proofs::Cuts::within_mag, crate::proofs::Cuts::degrees_mag))]
pub(crate) fn locate(fmc: f32, delta: f32) -> Place
    requires { (outside fmc ≡ false) × (outside delta ≡ false) }
    ensures { result ≡ place_of fmc delta }
{
    let cut_fmc = cut(fmc);
    let i = cut_fmc.clamp(1, table::ROWS as i32) as usize;
    let deltd = delta * R2D;
    let j = cut(deltd + 1.0).clamp(1, table::COLUMNS as i32) as usize;
    let degrees = (j - 1) as u16;
    Place {
        i,
        ip1: (i + 1).min(table::ROWS),
        xfmc: fmc - cut_fmc as f32,
        j,
        jp1: (j + 1).min(table::COLUMNS),
        xdelta: deltd - degrees as f32,
    }
}
