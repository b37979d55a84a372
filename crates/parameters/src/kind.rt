// The ten types of antenna, by the numbers of document 01 section 2.
ghost use Rattle.std.specs.Prelude.{◌≡◌};
ghost use Rattle.parameters.specs.Kind.{kind_of};

// `Other` is any number but 1 to 10. A variant, since document 01 refuses none here (D01-2.3): refusal 1
// judges the number, and what stands behind takes any.
#[derive(Clone, Copy, Debug, PartialEq, Eq)]
pub enum Kind {
    Rhombic,
    Monopole,
    Dipole,
    Yagi,
    LogPeriodic,
    Curtain,
    SlopingVee,
    InvertedL,
    SlopingRhombic,
    InterlacedRhombic,
    Other,
}

impl From<i32> for Kind {
    ghost from_gives = { λ number kind. kind ≡ kind_of number };

    #[tactic(auto, unfolding(crate::specs::Kind::kind_of, crate::specs::Params::is_type))]
    fn from(number: i32) -> Kind {
        match number {
            1 => Kind::Rhombic,
            2 => Kind::Monopole,
            3 => Kind::Dipole,
            4 => Kind::Yagi,
            5 => Kind::LogPeriodic,
            6 => Kind::Curtain,
            7 => Kind::SlopingVee,
            8 => Kind::InvertedL,
            9 => Kind::SlopingRhombic,
            10 => Kind::InterlacedRhombic,
            _ => Kind::Other,
        }
    }
}
