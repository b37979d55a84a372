// `cisi`, over the series and the rational form.
ghost use Rattle.std.specs.Prelude.{◌≡◌};
ghost use Rattle.refusals.specs.Refusals.{outcome_number, outcome_values};
ghost use Rattle.integrals.specs.Settled.{unsettled_number, settled_value};
ghost use Rattle.integrals.specs.Cisi.{integrals_of, integrals_settle, zeros, cisi_number, cisi_of, cisi_values};
ghost use Rattle.single.specs.Answer.{IsAnswer};

use crate::rational::{Integrals, rational};
use crate::series::{ci_series, si_series};
use crate::settled::{Settled, Turns};
use refusals::Refusal;

// What gain calls take: no limits on the argument.
pub fn integrals_of(x: f32) -> Option<Settled<Integrals>>
    ensures { IsAnswer unsettled_number (settled_value zeros) zeros 11 (integrals_of x) (integrals_settle x) result }
{
    if x < 1.0 {
        let ci = ci_series(x)?;
        let si = si_series(x)?;
        return Some(Settled {
            value: Integrals {
                ci: ci.sum,
                si: si.sum,
            },
            turns: Turns {
                ci: ci.turns,
                si: si.turns,
            },
        });
    }
    Some(Settled::at_once(rational(x)))
}

// The limits by two comparisons, as their definition: a range's `contains` is no plainer.
pub fn cisi(x: f32) -> Result<Integrals, Refusal>
    ensures { (result ≡ cisi_of x) × (outcome_number result ≡ cisi_number x) × (outcome_values zeros result ≡ cisi_values x) }
{
    if 0.0 <= x && x <= 1048576.0 {
        let computed = integrals_of(x).ok_or(Refusal::Unsettled)?;
        return Ok(computed.value);
    }
    Err(Refusal::Argument)
}
