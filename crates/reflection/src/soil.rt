// What the ground and the MHz give the reflection.
ghost use Rattle.std.specs.Prelude.{◌≡◌};
ghost use Rattle.reflection.specs.Soil.{soil_of};

#[derive(Clone, Copy)]
pub struct Soil {
    pub er: f32,
    pub x: f32,
    pub u: f32,
    pub v: f32,
    pub asxv: f32,
}

#[tactic(auto, unfolding(crate::specs::Soil::x_of, crate::specs::Soil::u_of, crate::specs::Soil::v_of, crate::specs::Soil::asxv_of, crate::specs::Soil::soil_of, single::proofs::Literals::round, single::proofs::Literals::of_bits))]
pub fn soil_of(sigma: f32, er: f32, fmc: f32) -> Soil
    ensures { result ≡ soil_of sigma er fmc }
{
    let x = 18000.0 * sigma / fmc;
    let u = er * er + x * x;
    let v = root::sqrt(u);
    let asxv = elementary::asin(x / v);
    Soil { er, x, u, v, asxv }
}
