// The f32 nearest to a number of ten-thousandths.
ghost use Rattle.std.specs.Prelude.{◌≡◌, false, ◌<◌};
ghost use Rattle.std.specs.Float.{binary32};
ghost use Rattle.std.specs.Float.Ieee.{round};
ghost use Rattle.field_reading.specs.Decimal.{ten_thousandths};
ghost use Rattle.field_reading.specs.Nearest.{nearest_whole};

// m / 10000 to the nearest whole number, at a tie the even one. By f64 it would be rounded twice,
// and that this always comes to one rounding would ask a longer proof.
#[tactic(auto, using(crate::proofs::Round::nearest_found))]
fn rounded(m: u64) -> u64
    requires { m < 167772160000 }
    ensures { result ≡ nearest_whole m }
{
    let q = m / 10000;
    let r = m % 10000 * 2;
    if r < 10000 {
        return q;
    }
    if r > 10000 {
        return q + 1;
    }
    q + q % 2
}

// m * 2^k is n * 2^149 throughout; at the end m / 10000 has 24 binary digits before the point.
#[tactic(auto, using(crate::proofs::Round::scaled))]
fn quotient(n: u64) -> f32
    requires { n < 100000000 }
    ensures { result ≡ round binary32 false n 10000 }
{
    if n == 0 {
        return 0.0;
    }
    let mut m = n * 1024;
    let mut k: u32 = 139;
    // How many doublings there are depends on m; k counts them, down from 139.
    while m < 83_886_080_000 {
        m *= 2;
        k -= 1;
    }
    f32::from_bits(k * 8_388_608 + rounded(m) as u32)
}

// n / 10000 with its sign; minus zero is zero.
#[tactic(auto, using(crate::proofs::Round::signed_answers))]
pub(crate) fn ten_thousandths(minus: bool, n: u64) -> f32
    requires { n < 100000000 }
    ensures { result ≡ ten_thousandths minus n }
{
    let x = quotient(n);
    if minus && n > 0 { -x } else { x }
}
