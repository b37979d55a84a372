// Which of the original's behaviours is reproduced.
ghost use Rattle.std.specs.Prelude.{◌≡◌};
ghost use Rattle.parameters.specs.Model.{model_of, curtain_elevation_threshold};

// The defects that a measurement corrects, of which the curtain's is the only one here.
#[derive(Clone, Copy)]
pub struct Fixes {
    pub curtain_elevation: bool,
}

#[derive(Clone, Copy)]
pub enum Model {
    Compatible,
    Corrected,
    Measuring(Fixes),
}

// By its number in C's calls: 0 is compatible, any other corrected.
impl From<i32> for Model {
    ghost from_gives = { λ number model. model ≡ model_of number };

    #[tactic(auto, unfolding(crate::specs::Model::model_of))]
    fn from(number: i32) -> Model {
        match number {
            0 => Model::Compatible,
            _ => Model::Corrected,
        }
    }
}

// How near to the vertical, in radians, the curtain takes the floor.
#[tactic(auto, unfolding(crate::specs::Model::curtain_elevation_threshold, single::proofs::Literals::round, single::proofs::Literals::of_bits))]
pub fn curtain_elevation_threshold(model: Model) -> f32
    ensures { result ≡ curtain_elevation_threshold model }
{
    match model {
        Model::Compatible => 1.0,
        Model::Corrected => 0.0001,
        Model::Measuring(fixes) => { if fixes.curtain_elevation { 0.0001 } else { 1.0 } }
    }
}
