// The integrals of two arguments, with the largest turns that either took.
ghost use Rattle.integrals.specs.Settled.{unsettled_number, settled_value};
ghost use Rattle.integrals.specs.Pair.{integral_pair, pair_settles, zero_pair};
ghost use Rattle.single.specs.Answer.{IsAnswer};

use crate::entry::integrals_of;
use crate::rational::Integrals;
use crate::settled::Settled;

pub fn integral_pair(x: f32, y: f32) -> Option<Settled<(Integrals, Integrals)>>
    ensures { IsAnswer unsettled_number (settled_value zero_pair) zero_pair 11 (integral_pair x y) (pair_settles x y) result }
{
    let first = integrals_of(x)?;
    let second = integrals_of(y)?;
    Some(Settled {
        value: (first.value, second.value),
        turns: first.turns.max(second.turns),
    })
}
