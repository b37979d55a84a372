// Document 01's examples of gain calls. A line each: refusal, 0 if accepted (3 columns); gain,
// efficiency and height left in hundredths (8 each); the call. The height carried is 0.
// Then the turns that the two series of the integrals take, after refusal 11 or 0 (3 columns each).
#![tactic(auto)]

use integrals::Turns;
use ioncap::GainCall;
use parameters::{IoncapParams, Model};
use refusals::{Refusal, verdict_number};
use std::io;

fn print_number(rt: &impl Print, n: u32) -> io::Result<()> {
    rt.write_all(&output::integer_columns::<3>(n as i64))
}

fn print_value(rt: &impl Print, x: f32) -> io::Result<()> {
    rt.write_all(&output::hundredths_columns::<8>(x))
}

// Zeros where it is refused. The other programs that print an answer have other columns, so one
// function for all is no plainer.
fn show(rt: &impl Print, call: GainCall, text: &str) -> io::Result<()> {
    let answer = ioncap::gain_of(call, 0.0);
    let (gain, efficiency) = answer.map_or((0.0, 0.0), |a| (a.gain, a.efficiency));
    print_number(rt, verdict_number(answer))?;
    print_value(rt, gain)?;
    print_value(rt, efficiency)?;
    print_value(rt, ioncap::height_left(answer, 0.0))?;
    println!(rt; "  {text}")
}

// Conductivity 0.01 over dielectric constant 4.
fn over_ground(and: f32, anl: f32, anh: f32, aex: [f32; 4]) -> IoncapParams {
    IoncapParams {
        asig: 0.01,
        aeps: 4.0,
        and,
        anl,
        anh,
        aex,
    }
}

fn compatible(kop: i32, params: IoncapParams, delta: f32, fmc: f32) -> GainCall {
    GainCall {
        kop,
        toaz: 0.0,
        params,
        delta,
        fmc,
        model: Model::Compatible,
    }
}

fn rhombic(delta: f32) -> GainCall {
    let params = over_ground(70.0, 100.0, 20.0, [0.0; 4]);
    compatible(1, params, delta, 7.0)
}

// Half a wavelength long and a quarter high.
fn dipole(delta: f32, fmc: f32) -> GainCall {
    let params = over_ground(0.0, -0.5, -0.25, [0.0; 4]);
    compatible(3, params, delta, fmc)
}

// The leg is a quarter of a wavelength, type 2's gain 0.
fn vertical(kop: i32, delta: f32) -> GainCall {
    let params = over_ground(0.0, -0.25, 0.0, [0.0; 4]);
    compatible(kop, params, delta, 7.0)
}

fn curtain(bays: f32, elements: f32, delta: f32) -> GainCall {
    let params = over_ground(bays, -0.5, -0.5, [elements, -0.5, -0.5, -0.25]);
    compatible(6, params, delta, 7.0)
}

fn conducting(asig: f32, delta: f32) -> GainCall {
    let mut call = dipole(delta, 7.0);
    call.params.asig = asig;
    call
}

fn frequencies(rt: &impl Print) -> io::Result<()> {
    show(rt, dipole(0.3, 1.0), "1 MHz")?;
    show(rt, dipole(0.3, 0.99999994), "the f32 below")?;
    show(rt, dipole(0.3, 30.0), "30 MHz")?;
    show(rt, dipole(0.3, 30.000002), "the f32 above")?;
    show(rt, dipole(0.0, 30.000002), "also on the ground")
}

fn bays(rt: &impl Print) -> io::Result<()> {
    show(rt, curtain(64.0, 4.0, 0.5), "64 bays")?;
    show(rt, curtain(64.00001, 4.0, 0.5), "the f32 above")?;
    show(rt, curtain(65.0, 4.0, 0.5), "65 bays")?;
    show(rt, curtain(65.0, 4.0, 0.0), "also on the ground")
}

fn elevations(rt: &impl Print) -> io::Result<()> {
    let least = vectors::float(1);
    show(rt, vertical(5, 0.0), "type 5 at elevation 0")?;
    show(rt, vertical(5, -0.0), "at minus 0")?;
    show(rt, vertical(5, least), "at the least f32 above 0")?;
    show(rt, vertical(5, -0.3), "below the ground")?;
    show(rt, rhombic(0.0), "type 1 at elevation 0")?;
    show(rt, rhombic(least), "at the least f32 above 0")?;
    show(rt, rhombic(1000.0), "at 1000")
}

fn conductivities(rt: &impl Print) -> io::Result<()> {
    show(rt, conducting(0.0, 0.3), "conductivity 0")?;
    show(rt, conducting(-0.0, 0.3), "conductivity minus 0")?;
    show(rt, conducting(0.0, 0.0), "conductivity 0 on the ground")?;
    show(
        rt,
        conducting(vectors::float(1), 0.3),
        "the least f32 above 0",
    )?;
    show(
        rt,
        conducting(vectors::float(0x0080_0000), 0.3),
        "the least normal f32",
    )
}

fn elements(rt: &impl Print) -> io::Result<()> {
    show(
        rt,
        curtain(4.0, 4.0, 0.5),
        "curtain of 4 elements at elevation 0.5",
    )?;
    show(rt, curtain(4.0, 4.0, 1.0), "at elevation 1, on the floor")?;
    show(rt, curtain(4.0, -2.0, 1.0), "-2 elements, on the floor")?;
    show(rt, curtain(4.0, 8.0, 0.5), "8 elements")?;
    show(rt, curtain(4.0, 10.0, 0.5), "10 elements")?;
    show(rt, curtain(4.0, 12.0, 0.5), "12 elements count as 10")?;
    show(rt, curtain(4.0, -1.0, 0.5), "-1 counts as 10")?;
    show(rt, curtain(4.0, -0.5, 0.5), "-0.5 counts as none")
}

fn floors(rt: &impl Print) -> io::Result<()> {
    show(
        rt,
        vertical(2, 1.5707964),
        "type 2 straight up, not floored",
    )?;
    show(rt, vertical(5, 1.5707964), "type 5 straight up")?;
    show(rt, vertical(2, 0.0), "type 2 at elevation 0")
}

// A dipole's call with one number set to 1000, and to the f32 above.
fn limit<F: Fn(&mut GainCall, f32)>(rt: &impl Print, set: F, text: &str) -> io::Result<()>
    requires { F.IsAlwaysCallable set }
{
    let mut call = dipole(0.3, 7.0);
    set(&mut call, 1000.0);
    show(rt, call, text)?;
    set(&mut call, 1000.00006);
    show(rt, call, "the f32 above")
}

fn limits(rt: &impl Print) -> io::Result<()> {
    limit(rt, |call, x| call.toaz = x, "azimuth 1000")?;
    limit(rt, |call, x| call.params.asig = x, "conductivity 1000")?;
    limit(
        rt,
        |call, x| call.params.aeps = x,
        "dielectric constant 1000",
    )?;
    limit(rt, |call, x| call.params.and = x, "angle 1000")?;
    limit(rt, |call, x| call.params.anl = x, "leg 1000")?;
    limit(rt, |call, x| call.params.anh = x, "height 1000")?;
    limit(rt, |call, x| call.params.aex[0] = x, "first extra 1000")?;
    limit(rt, |call, x| call.params.aex[1] = x, "second extra 1000")?;
    limit(rt, |call, x| call.params.aex[2] = x, "third extra 1000")?;
    limit(rt, |call, x| call.params.aex[3] = x, "fourth extra 1000")?;
    limit(rt, |call, x| call.delta = x, "elevation 1000")?;
    limit(rt, |call, x| call.fmc = x, "1000 MHz")
}

fn show_turns(rt: &impl Print, x: f32, text: &str) -> io::Result<()> {
    let settled = integrals::integrals_of(x).ok_or(Refusal::Unsettled);
    let turns = settled.map_or(Turns::NONE, |s| s.turns);
    print_number(rt, verdict_number(settled))?;
    print_number(rt, turns.ci)?;
    print_number(rt, turns.si)?;
    println!(rt; "  {text}")
}

// Within `cisi`'s limits three turns suffice: measured over every f32 from 0 to below 1, not proved.
// Below 0, outside the limits, there are eight, and more.
fn series(rt: &impl Print) -> io::Result<()> {
    show_turns(rt, 0.0, "turns at 0")?;
    show_turns(rt, 0.9, "turns at 0.9")?;
    show_turns(rt, 1.0, "no series at 1")?;
    show_turns(rt, -4.5, "eight turns at -4.5")?;
    show_turns(rt, -5.0, "the sine's series unsettled at -5")?;
    show_turns(rt, -6.0, "both unsettled at -6")
}

fn main(rt: HostRuntime) -> io::Result<()> {
    frequencies(&rt)?;
    bays(&rt)?;
    conductivities(&rt)?;
    elevations(&rt)?;
    elements(&rt)?;
    floors(&rt)?;
    limits(&rt)?;
    series(&rt)
}
