// The list `integrals`: the cosine and the sine integral of an argument.
use crate::line::{Line, float_at, is_at, pair};

// A refusal as the number that the list has, with zeros.
pub(crate) fn is_equal(line: &Line) -> bool {
    let answer = integrals::cisi(float_at(line, 3));
    let (ci, si) = answer.map_or((0.0, 0.0), |v| (v.ci, v.si));
    (pair(line, 0) == refusals::verdict_number(answer)) & is_at(line, 12, ci) & is_at(line, 21, si)
}
