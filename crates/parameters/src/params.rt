// Document 01 section 2: `ioninit`.
ghost use Rattle.std.specs.Prelude.{◌≡◌};
ghost use Rattle.parameters.specs.Params.{params_of, ioninit_of};

use crate::kind::Kind;

#[derive(Clone, Copy)]
pub struct IoncapParams {
    // Ground conductivity, mhos/metre.
    pub asig: f32,
    // Ground relative dielectric constant.
    pub aeps: f32,
    // Angle, degrees; the curtain's number of bays.
    pub and: f32,
    // Leg, read as a Length.
    pub anl: f32,
    // Height, read as a Length; the monopole's gain in dB.
    pub anh: f32,
    // What else the type takes.
    pub aex: [f32; 4],
}

#[tactic(auto, unfolding(crate::specs::Params::params_of))]
fn params(parm: &[f32; 20], and: f32, anl: f32, anh: f32, aex: [f32; 4]) -> IoncapParams
    ensures { result ≡ params_of parm.now and anl anh aex }
{
    IoncapParams {
        asig: parm[3],
        aeps: parm[2],
        and,
        anl,
        anh,
        aex,
    }
}

// By type, 1 to 10; ground values and zeros for any other. A slot's local has its number from 1.
#[tactic(auto, unfolding(crate::specs::Params::ioninit_of, crate::specs::Params::is_type, crate::specs::Kind::kind_of, single::proofs::Literals::round, single::proofs::Literals::of_bits))]
pub fn ioninit(index: i32, parm: &[f32; 20]) -> IoncapParams
    ensures { result ≡ ioninit_of index parm.now }
{
    let [_, _, _, _, _, s6, s7, s8, s9, s10, s11, s12, ..] = *parm;
    // An arm for each type: document 01 speaks of ten arms.
    match Kind::from(index) {
        Kind::Rhombic => params(parm, s6, s7, s8, [0.0; 4]),
        Kind::Monopole => params(parm, 0.0, s6, s7, [0.0; 4]),
        Kind::Dipole => params(parm, 0.0, s6, s7, [s8, 0.0, 0.0, 0.0]),
        Kind::Yagi => params(parm, 0.0, s6, s7, [s8, 0.0, 0.0, 0.0]),
        Kind::LogPeriodic => params(parm, 0.0, -0.25, 0.0, [s6, 0.0, 0.0, 0.0]),
        Kind::Curtain => params(parm, s6, s7, s8, [s9, s10, s11, s12]),
        Kind::SlopingVee => params(parm, s6, s7, s8, [s9, 0.0, 0.0, 0.0]),
        Kind::InvertedL => params(parm, 0.0, s6, s7, [0.0; 4]),
        Kind::SlopingRhombic => params(parm, s6, s7, s8, [s9, 0.0, 0.0, 0.0]),
        Kind::InterlacedRhombic => params(parm, s6, s7, s8, [s9, s10, 0.0, 0.0]),
        Kind::Other => params(parm, 0.0, 0.0, 0.0, [0.0; 4]),
    }
}
