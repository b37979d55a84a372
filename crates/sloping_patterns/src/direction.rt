// What both patterns take of a cell: the direction against the legs.
ghost use Rattle.std.specs.Prelude.{◌≡◌};
ghost use Rattle.sloping_patterns.specs.Direction.{direction_of};

use angles::Elevation;
use slopes::Slope;

// 1 and 2 are the legs, 3 and 4 their images: `u` is 1 minus the cosine of the angle to the
// direction. Numbered as document 01 numbers them: legs in structs of their own read no plainer.
#[derive(Clone, Copy)]
pub struct Direction {
    pub copsi5: f32,
    pub copsi6: f32,
    pub copsi7: f32,
    pub copsi8: f32,
    pub u1: f32,
    pub u2: f32,
    pub u3: f32,
    pub u4: f32,
}

// A field strength as a complex number. curtain's Sums is a sum over elements, with operations of its
// own, and neither crate needs the other.
#[derive(Clone, Copy)]
pub struct Field {
    pub re: f32,
    pub im: f32,
}

#[tactic(auto, unfolding(crate::specs::Direction::direction_of, single::proofs::Literals::round, single::proofs::Literals::of_bits))]
pub(crate) fn direction_of(slope: Slope, elevation: Elevation) -> Direction
    ensures { result ≡ direction_of slope elevation }
{
    let Slope {
        g,
        pp,
        cosum,
        codif,
        ..
    } = slope;
    let Elevation { t, q, .. } = elevation;
    let copsi1 = q * g + t * pp * codif;
    let copsi2 = q * g + t * pp * cosum;
    let copsi3 = -q * g + t * pp * codif;
    let copsi4 = -q * g + t * pp * cosum;
    Direction {
        copsi5: t * g + q * pp * codif,
        copsi6: t * g + q * pp * cosum,
        copsi7: -t * g + q * pp * codif,
        copsi8: -t * g + q * pp * cosum,
        u1: 1.0 - copsi1,
        u2: 1.0 - copsi2,
        u3: 1.0 - copsi3,
        u4: 1.0 - copsi4,
    }
}
