// The list `elementary`: a function of one argument.
use crate::line::{Line, bits_at, float_at, pair};

pub(crate) fn is_equal(line: &Line) -> bool {
    elementary_calls::call(pair(line, 0), float_at(line, 3)) == bits_at(line, 12)
}
