// One function for each thing that is asked of the library: what is lent to it, and a line with all of its answer and of what it was lent to write.
ghost use Rattle.std.specs.Prelude.{◌+◌, ◌≤◌, length};

use crate::print::{Bytes, Numbers, Verdict};
use std::io::{Print, Result};
use unknowns::Unknown;

// What a record asks about bytes, or about knots, by its number; `Text` is a text to print.
#[derive(Clone, Copy)]
pub(crate) enum Question {
    Bytes(OfBytes),
    Knots(OfKnots),
}

#[derive(Clone, Copy)]
pub(crate) enum OfBytes {
    Text,
    Mean,
    Reading,
    Check,
    Swing,
    Explain,
}

#[derive(Clone, Copy)]
pub(crate) enum OfKnots {
    Fit,
    FitCodes,
    Write,
    Read,
    Mend,
    FitSlopes,
    WriteSlopes,
    Preheat,
    Unknown,
}

impl From<u16> for Question {
    fn from(number: u16) -> Question {
        match number {
            0 => Question::Bytes(OfBytes::Text),
            1 => Question::Bytes(OfBytes::Mean),
            2 => Question::Bytes(OfBytes::Reading),
            3 => Question::Bytes(OfBytes::Check),
            4 => Question::Bytes(OfBytes::Swing),
            5 => Question::Knots(OfKnots::Fit),
            6 => Question::Knots(OfKnots::FitCodes),
            7 => Question::Knots(OfKnots::Write),
            8 => Question::Knots(OfKnots::Read),
            10 => Question::Knots(OfKnots::FitSlopes),
            11 => Question::Knots(OfKnots::WriteSlopes),
            12 => Question::Bytes(OfBytes::Explain),
            13 => Question::Knots(OfKnots::Preheat),
            14 => Question::Knots(OfKnots::Unknown),
            _ => Question::Knots(OfKnots::Mend),
        }
    }
}

// ---- about bytes

fn mean(rt: HostRuntime, minute: u16, log: &[u8]) -> Result<()> {
    let mean = log_mean::mean_of(minute, log);
    print!(rt;
        "mean {}; minute {}; ordinate {}; good {}; faults {}",
        Verdict(mean.number, mean.place),
        mean.minute,
        mean.ordinate,
        mean.good,
        mean.faults
    )
}

fn reading(rt: HostRuntime, minute: u16, card: &[u8]) -> Result<()> {
    let reading = card::reading(card, minute);
    print!(rt;
        "reading {}; value {}; slope {}; curvature {}; looks {}",
        Verdict(reading.number, reading.place),
        reading.value,
        reading.slope,
        reading.curvature,
        reading.looks
    )
}

fn swing(rt: HostRuntime, card: &[u8]) -> Result<()> {
    let swung = swing::swing(card);
    print!(rt;
        "swing {}; knot {}; minute {}; below {}; above {}",
        Verdict(swung.number, swung.place),
        swung.knot,
        swung.minute,
        swung.below,
        swung.above
    )
}

fn explain(rt: HostRuntime, minute: u16, card: &[u8]) -> Result<()> {
    let told = explain::explain(card, minute);
    let verdict = Verdict(told.number, told.place);
    print!(rt;
        "explain {verdict}; gap {}; minutes {}",
        told.gap, told.minutes
    )?;
    let parts = [
        told.ordinate,
        told.ordinate1,
        told.slope,
        told.slope1,
        told.curvature,
        told.curvature1,
    ];
    print!(rt;
        "; parts{}; denominator {}",
        Numbers(&parts),
        told.denominator
    )?;
    print!(rt;
        "; knot {}; order {}; jump {}; allowance {}",
        told.knot, told.order, told.jump, told.allowance
    )
}

fn checked(rt: HostRuntime, word: &str, checked: card::Checked) -> Result<()> {
    print!(rt;
        "{word} {}; knots {}; left {}; right {}; kind {}",
        Verdict(checked.number, checked.place),
        checked.knots,
        checked.left,
        checked.right,
        checked.kind
    )
}

pub(crate) fn of_bytes(rt: HostRuntime, asked: OfBytes, minute: u16, list: &[u8]) -> Result<()> {
    match asked {
        OfBytes::Text => rt.write_all(list),
        OfBytes::Mean => mean(rt, minute, list),
        OfBytes::Reading => reading(rt, minute, list),
        OfBytes::Check => checked(rt, "check", card::check(list)),
        OfBytes::Swing => swing(rt, list),
        OfBytes::Explain => explain(rt, minute, list),
    }
}

// ---- about knots

fn print_slopes(rt: HostRuntime, slopes: &[i32], curvatures: &[i32]) -> Result<()> {
    let slopes = Numbers(slopes);
    print!(rt; "; slopes{slopes}; curvatures{}", Numbers(curvatures))
}

fn read(
    rt: HostRuntime,
    card: &[u8],
    minutes: &mut [u16],
    ordinates: &mut [i16],
    slopes: &mut [i32],
    curvatures: &mut [i32],
) -> Result<()> {
    let answer = card::read(card, minutes, ordinates, slopes, curvatures);
    checked(rt, "read", answer)?;
    print!(rt;
        "; minutes{}; ordinates{}",
        Numbers(minutes),
        Numbers(ordinates)
    )?;
    print_slopes(rt, slopes, curvatures)
}

fn written(rt: HostRuntime, word: &str, written: writer::Written, buffer: &[u8]) -> Result<()> {
    let verdict = Verdict(written.number, written.place);
    let bytes = Bytes(buffer);
    print!(rt; "{word} {verdict}; bytes {}; buffer{bytes}", written.bytes)
}

fn fitted(rt: HostRuntime, fitted: fit::Fitted, slopes: &[i32], curvatures: &[i32]) -> Result<()> {
    print!(rt; "fit {}", Verdict(fitted.number, fitted.place))?;
    print_slopes(rt, slopes, curvatures)
}

fn fit(
    rt: HostRuntime,
    minutes: &[u16],
    ordinates: &[i16],
    slopes: &mut [i32],
    curvatures: &mut [i32],
) -> Result<()> {
    let answer = fit::fit(minutes, ordinates, slopes, curvatures);
    fitted(rt, answer, slopes, curvatures)
}

fn fit_slopes(
    rt: HostRuntime,
    minutes: &[u16],
    ordinates: &[i16],
    slopes: &[i32],
    curvatures: &mut [i32],
) -> Result<()> {
    let fitted = slope_fit::fit(minutes, ordinates, slopes, curvatures);
    let verdict = Verdict(fitted.number, fitted.place);
    print!(rt; "fit_slopes {verdict}; curvatures{}", Numbers(curvatures))
}

// A numerator and a divisor, each as how many times 2^31 and the rest: exact up to 2^53.
fn number(list: &[u8], at: usize) -> f64
    requires { at + 16 ≤ length list.now }
{
    let many = little_endian::read_i32(list, at) as f64;
    let rest = little_endian::read_i32(list, at + 4) as f64;
    let divisor_many = little_endian::read_i32(list, at + 8) as f64;
    let divisor_rest = little_endian::read_i32(list, at + 12) as f64;
    (many * 2147483648.0 + rest) / (divisor_many * 2147483648.0 + divisor_rest)
}

fn fit_codes(
    rt: HostRuntime,
    left: u16,
    right: u16,
    minutes: &[u16],
    ordinates: &[i16],
    slopes: &mut [i32],
    curvatures: &mut [i32],
    ends: &[u8],
) -> Result<()> {
    if ends.len() < 64 {
        return Ok(());
    }
    let answer = fit::fit_codes(
        minutes,
        ordinates,
        slopes,
        curvatures,
        left,
        number(ends, 0),
        number(ends, 16),
        right,
        number(ends, 32),
        number(ends, 48),
    );
    fitted(rt, answer, slopes, curvatures)
}

fn mend(
    rt: HostRuntime,
    room: usize,
    minutes: &[u16],
    ordinates: &mut [i16],
    slopes: &mut [i32],
    curvatures: &mut [i32],
) -> Result<()> {
    let plan = mend::mend(minutes, ordinates, slopes, curvatures, room);
    let verdict = Verdict(plan.number, plan.place);
    print!(rt; "mend {verdict}; count {}", plan.count)?;
    for change in plan.changes.iter().take(plan.count as usize) {
        print!(rt; "; change {} {} {}", change.place, change.old, change.new)?;
    }
    print!(rt; "; ordinates{}", Numbers(ordinates))?;
    print_slopes(rt, slopes, curvatures)
}

fn preheat(rt: HostRuntime, parts: u16, count: u16, values: &[i16]) -> Result<()> {
    let heated = preheat::value(values, parts, count);
    let verdict = Verdict(heated.number, heated.place);
    print!(rt; "preheat {verdict}; value {}", heated.value)
}

fn unknown(rt: HostRuntime, place: u16, values: &[i16]) -> Result<()> {
    match unknowns::unknown_at(values, place) {
        Ok(answer) => {
            let Unknown { unknown, scale } = answer;
            print!(rt; "unknown ok; unknown {unknown}; scale {scale}")
        }
        Err(refusal) => {
            let verdict = Verdict(refusal.number(), refusal.place);
            print!(rt; "unknown {verdict}; unknown 0; scale 0")
        }
    }
}

// In place of the left end's code, mending has how many places its list of changes has; in place of both codes,
// the pre-heater has its parts and its count, an unknown its place. The four lists go each for itself: in a struct
// of loans they could not be lent on, since the borrow checker does not cover that.
pub(crate) fn of_knots(
    rt: HostRuntime,
    asked: OfKnots,
    left: u16,
    right: u16,
    minutes: &mut [u16],
    ordinates: &mut [i16],
    slopes: &mut [i32],
    curvatures: &mut [i32],
    list: &mut [u8],
) -> Result<()> {
    match asked {
        OfKnots::Fit => fit(rt, minutes, ordinates, slopes, curvatures),
        OfKnots::FitCodes => fit_codes(
            rt, left, right, minutes, ordinates, slopes, curvatures, list,
        ),
        OfKnots::Write => {
            let answer = writer::write(minutes, ordinates, slopes, curvatures, left, right, list);
            written(rt, "write", answer, list)
        }
        OfKnots::Read => read(rt, list, minutes, ordinates, slopes, curvatures),
        OfKnots::Mend => mend(rt, left as usize, minutes, ordinates, slopes, curvatures),
        OfKnots::FitSlopes => fit_slopes(rt, minutes, ordinates, slopes, curvatures),
        OfKnots::WriteSlopes => {
            let answer = writer::write_slopes(minutes, ordinates, slopes, curvatures, list);
            written(rt, "write_slopes", answer, list)
        }
        OfKnots::Preheat => preheat(rt, left, right, ordinates),
        OfKnots::Unknown => unknown(rt, left, ordinates),
    }
}
