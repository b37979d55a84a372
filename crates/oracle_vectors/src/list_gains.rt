// The list `gains`: gain calls.
use crate::line::{Line, float, is_at, model, pair, word};
use ioncap::{Answer, GainCall};
use parameters::IoncapParams;
use refusals::{Refusal, verdict_number};

fn params(line: &Line) -> IoncapParams {
    let aex = [
        float(line, 8),
        float(line, 9),
        float(line, 10),
        float(line, 11),
    ];
    IoncapParams {
        asig: float(line, 3),
        aeps: float(line, 4),
        and: float(line, 5),
        anl: float(line, 6),
        anh: float(line, 7),
        aex,
    }
}

fn call(line: &Line) -> GainCall {
    GainCall {
        kop: vectors::signed(word(line, 0)),
        toaz: float(line, 2),
        params: params(line),
        delta: float(line, 12),
        fmc: float(line, 13),
        model: model(vectors::digit(line[0])),
    }
}

// A refusal as the number that the list has, with zeros, as in list_antenna: only the columns
// differ, and a shared function would take each of them as an argument.
fn is_answer(line: &Line, answer: Result<Answer, Refusal>) -> bool {
    let (gain, efficiency) = answer.map_or((0.0, 0.0), |a| (a.gain, a.efficiency));
    (pair(line, 128) == verdict_number(answer))
        & is_at(line, 131, gain)
        & is_at(line, 140, efficiency)
}

// Also the height left.
pub(crate) fn is_equal(line: &Line) -> bool {
    let height = float(line, 1);
    let answer = ioncap::gain_of(call(line), height);
    is_answer(line, answer) & is_at(line, 149, ioncap::height_left(answer, height))
}
