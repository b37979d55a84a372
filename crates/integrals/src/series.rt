// The two series, for arguments below 1.
ghost use Rattle.std.specs.Prelude.{◌≡◌};
ghost use Rattle.integrals.specs.Settled.{unsettled_number};
ghost use Rattle.integrals.specs.Series.{series_of, ci_series, si_series, ci_settles, si_settles, series_value};
ghost use Rattle.single.specs.Answer.{IsAnswer};
ghost use Rattle.single.specs.Single.{num};

// Turns that a series may make.
const MOST_TURNS: u32 = 8;

// A settled sum with the turns made.
#[derive(Clone, Copy)]
pub struct SeriesSum {
    pub sum: f32,
    pub turns: u32,
}

// `first` and the terms from `start` on, until one is small. Requirement D01-F.4 asks for this loop,
// left by break with the sum and its turns, and so for no `for`.
#[tactic(auto, unfolding(single::proofs::Literals::round, single::proofs::Literals::of_bits, crate::specs::Series::series_from, crate::specs::Series::series_of))]
fn sum_series(first: f32, start: f32, from: f32, sq: f32) -> Option<SeriesSum>
    ensures { result ≡ series_of first start from sq }
{
    let mut sum = first;
    let mut term = start;
    let mut g = from;
    let mut turns: u32 = 0;
    loop {
        sum = sum + term;
        term = -term * sq * (g - 2.0) / ((g - 1.0) * g * g);
        g = g + 2.0;
        turns = turns + 1;
        if elementary::abs(term) <= 0.00005 {
            break Some(SeriesSum { sum, turns });
        }
        if MOST_TURNS <= turns {
            break None;
        }
    }
}

#[tactic(auto, unfolding(crate::specs::Series::ci_series, single::proofs::Literals::round, single::proofs::Literals::of_bits), using(crate::proofs::Refusal::ci_answers))]
pub(crate) fn ci_series(x: f32) -> Option<SeriesSum>
    ensures { IsAnswer unsettled_number series_value (num 0 1) 11 (ci_series x) (ci_settles x) result }
{
    let sq = x * x;
    sum_series(0.5772156649 + elementary::ln(x), -sq / 4.0, 4.0, sq)
}

#[tactic(auto, unfolding(crate::specs::Series::si_series, single::proofs::Literals::round, single::proofs::Literals::of_bits), using(crate::proofs::Refusal::si_answers))]
pub(crate) fn si_series(x: f32) -> Option<SeriesSum>
    ensures { IsAnswer unsettled_number series_value (num 0 1) 11 (si_series x) (si_settles x) result }
{
    sum_series(0.0, x, 3.0, x * x)
}
