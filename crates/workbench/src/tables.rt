// The readings of a card at all of its minutes, and their lines.
ghost use Rattle.std.specs.Prelude.{◌<◌};

use crate::places::{at, front};
use crate::tell::{Done, Undone};
use knots::Kind;

// No line is longer.
const LINE: usize = 48;

// At the front of three arrays, from a first minute on. No card goes beyond minute 65,535.
#[derive(Drop)]
pub(crate) struct Readings {
    pub(crate) first: u16,
    count: usize,
    values: [i32; Readings::MOST],
    slopes: [i32; Readings::MOST],
    curvatures: [i32; Readings::MOST],
}

impl Readings {
    // The most and widest gaps that a card has, and the first minute.
    const MOST: usize = (Kind::MOST - 1) * (Kind::GAP as usize) + 1;

    // What a buffer of 65,536 bytes may hold before another line goes into it.
    const NEARLY_FULL: usize = 65_488;

    pub(crate) fn of(card: &[u8], first: u16) -> Readings {
        let mut values = [0i32; Readings::MOST];
        let mut slopes = [0i32; Readings::MOST];
        let mut curvatures = [0i32; Readings::MOST];
        let tabled = table::table(card, first, &mut values, &mut slopes, &mut curvatures);
        Readings {
            first,
            count: tabled.count as usize,
            values,
            slopes,
            curvatures,
        }
    }

    pub(crate) fn values(&self) -> &[i32] {
        front(&self.values, self.count)
    }
}

// The line of a reading, where the buffer has room for any.
#[tactic(auto, using(listing::proofs::Lengths::length_knot_line))]
fn put_reading(
    text: &mut [u8],
    at: usize,
    minute: u16,
    value: i32,
    slope: i32,
    curvature: i32,
) -> usize {
    if text.len() < LINE {
        return at;
    }
    if text.len() - LINE < at {
        return at;
    }
    listing::knot_line(text, at, minute, value, slope, curvature)
}

// Every so many minutes, from the first on.
fn print_lines(rt: HostRuntime, readings: &Readings, every: usize) -> Done
    requires { (0 < every) × (every < 65536) }
{
    let mut text = io::large_buffer();
    let mut next: usize = 0;
    let mut done = Ok(());
    let minutes = readings.first..=u16::MAX;
    for (minute, i) in minutes.zip(0..readings.count).step_by(every) {
        if Readings::NEARLY_FULL < next {
            done = done.max(crate::tell::print(rt, front(&text, next)));
            next = 0;
        }
        next = put_reading(
            &mut text,
            next,
            minute,
            at(&readings.values, i),
            at(&readings.slopes, i),
            at(&readings.curvatures, i),
        );
    }
    done.max(crate::tell::print(rt, front(&text, next)))
}

pub(crate) fn print(rt: HostRuntime, card: &[u8], first: u16, every: u16) -> Done {
    if every == 0 {
        let _ = eprintln!(rt; "kaihveto: --every asks for a number above 0");
        return Err(Undone::Failed);
    }
    print_lines(rt, &Readings::of(card, first), every as usize)
}
