// The list `parameters`: `ioninit`, a length's three roles and the curtain's threshold.
use crate::line::{Line, float, is, model, slots, word};
use lengths::{HEIGHT_TURN, MONOPOLE_TURN};

fn is_ioninit(line: &Line) -> bool {
    let parm = slots(line, 1);
    let p = parameters::ioninit(vectors::signed(word(line, 0)), &parm);
    let aex = p.aex;
    is(line, 21, p.asig)
        & is(line, 22, p.aeps)
        & is(line, 23, p.and)
        & is(line, 24, p.anl)
        & is(line, 25, p.anh)
        & is(line, 26, aex[0])
        & is(line, 27, aex[1])
        & is(line, 28, aex[2])
        & is(line, 29, aex[3])
}

fn is_length(line: &Line) -> bool {
    let length = lengths::read_length(float(line, 0));
    let wave = float(line, 1);
    let leg = lengths::leg_in_waves(length, wave);
    let height = lengths::phase_in_waves(HEIGHT_TURN, length, wave);
    let monopole = lengths::phase_in_waves(MONOPOLE_TURN, length, wave);
    is(line, 2, leg.fac)
        & is(line, 3, leg.el1)
        & is(line, 4, height.phase)
        & is(line, 5, height.waves)
        & is(line, 6, monopole.phase)
        & is(line, 7, monopole.waves)
}

fn is_threshold(line: &Line) -> bool {
    let m = model(word(line, 0));
    is(line, 1, parameters::curtain_elevation_threshold(m))
}

pub(crate) fn is_equal(line: &Line) -> bool {
    match line[0] {
        b'i' => is_ioninit(line),
        b'l' => is_length(line),
        b't' => is_threshold(line),
        _ => false,
    }
}
