// The report on a card: how far its curve goes, where it leaves 0 to 100 % or goes far beyond its knots, and
// which of its numbers a fresh fit of its knots does not give.
use crate::places::{at, front};
use crate::source::Source;
use crate::swings::{Beyond, Care};
use crate::tables::Readings;
use crate::tell::Done;
use decode::Card;
use knots::Kind;
use std::fmt;
use std::fmt::{Display, Formatter, Write};
use swing::Swung;

const FULL: i32 = 10_000;

// A value and its minute.
#[derive(Clone, Copy)]
struct Extreme {
    value: i32,
    minute: u16,
}

#[derive(Clone, Copy)]
struct Span {
    lowest: Extreme,
    highest: Extreme,
}

impl Span {
    // The first of several.
    fn of(readings: &Readings) -> Span {
        let first = Extreme {
            value: at(readings.values(), 0),
            minute: readings.first,
        };
        let mut lowest = first;
        let mut highest = first;
        for (minute, value) in (readings.first..=u16::MAX).zip(readings.values()) {
            let value = *value;
            if value < lowest.value {
                lowest = Extreme { value, minute };
            }
            if highest.value < value {
                highest = Extreme { value, minute };
            }
        }
        Span { lowest, highest }
    }

    // Whether it leaves 0 to 100 %.
    fn leaves(self) -> bool {
        self.lowest.value < 0 || FULL < self.highest.value
    }
}

pub(crate) fn first_minute(card: Card) -> u16 {
    at(&card.minutes, 0)
}

pub(crate) fn last_minute(card: Card) -> u16 {
    front(&card.minutes, card.knots)
        .last()
        .copied()
        .unwrap_or(0)
}

// `18 knots, minute 0 to 1020`.
#[derive(Clone, Copy)]
pub(crate) struct Reach {
    knots: usize,
    first: u16,
    last: u16,
}

impl Reach {
    pub(crate) fn of(card: Card) -> Reach {
        Reach {
            knots: card.knots,
            first: first_minute(card),
            last: last_minute(card),
        }
    }
}

impl Display for Reach {
    fn fmt<W: Write>(&self, f: &mut Formatter<W>) -> fmt::Result {
        write!(
            f,
            "{} knots, minute {} to {}",
            self.knots, self.first, self.last
        )
    }
}

// `room3.card: ok, kind 1, 18 knots, minute 0 to 1020, lowest -463 at 388, highest 10216 at 131, beyond its
// knots by 463 at 388`.
fn summary(
    rt: HostRuntime,
    name: &[u8],
    kind: Kind,
    card: Card,
    span: Span,
    furthest: Swung,
) -> Done {
    let slopes = if kind.fourth {
        ""
    } else {
        " with given slopes"
    };
    let Span { lowest, highest } = span;
    let extremes = format_args!(
        "lowest {} at {}, highest {} at {}",
        lowest.value, lowest.minute, highest.value, highest.minute
    );
    crate::tell::line(
        rt,
        name,
        format_args!(
            ": ok, kind {}{slopes}, {}, {extremes}, {}",
            kind.head,
            Reach::of(card),
            Beyond(furthest)
        ),
    )
}

// On which side of 0 to 100 % the curve is.
#[derive(Clone, Copy)]
enum Side {
    Below,
    Above,
}

impl Side {
    fn has(self, value: i32) -> bool {
        match self {
            Side::Below => value < 0,
            Side::Above => FULL < value,
        }
    }

    fn words(self) -> &'static str {
        match self {
            Side::Below => "below 0",
            Side::Above => "above 10000",
        }
    }
}

// Minutes one after the other at which the curve is outside.
#[derive(Clone, Copy)]
struct Stretch {
    from: u16,
    to: u16,
}

impl Stretch {
    fn warn(self, rt: HostRuntime, name: &[u8], side: Side) -> Done {
        crate::tell::line(
            rt,
            name,
            format_args!(
                ": warning: the curve is {} from minute {} to {}",
                side.words(),
                self.from,
                self.to
            ),
        )
    }
}

fn end(rt: HostRuntime, name: &[u8], side: Side, stretch: Option<Stretch>) -> Done {
    match stretch {
        None => Ok(()),
        Some(stretch) => stretch.warn(rt, name, side),
    }
}

// A line for each stretch below 0, or above 10,000.
fn warnings(rt: HostRuntime, name: &[u8], readings: &Readings, side: Side) -> Done {
    let mut done = Ok(());
    let mut stretch: Option<Stretch> = None;
    for (minute, value) in (readings.first..=u16::MAX).zip(readings.values()) {
        if side.has(*value) {
            let from = stretch.map_or(minute, |begun| begun.from);
            stretch = Some(Stretch { from, to: minute });
        } else {
            done = done.max(end(rt, name, side, stretch));
            stretch = None;
        }
    }
    done.max(end(rt, name, side, stretch))
}

// `room3.card: note: knot 6: curvature 83201, a fresh fit gives 83200`.
fn note(rt: HostRuntime, name: &[u8], knot: usize, what: &str, has: i32, fresh: i32) -> Done {
    if has == fresh {
        return Ok(());
    }
    crate::tell::line(
        rt,
        name,
        format_args!(": note: knot {knot}: {what} {has}, a fresh fit gives {fresh}"),
    )
}

fn compare(
    rt: HostRuntime,
    name: &[u8],
    card: Card,
    slopes: &[i32; Kind::MOST],
    curvatures: &[i32; Kind::MOST],
) -> Done {
    let mut done = Ok(());
    for i in 0..card.knots {
        let slope = note(rt, name, i, "slope", at(&card.slopes, i), at(slopes, i));
        let curvature = note(
            rt,
            name,
            i,
            "curvature",
            at(&card.curvatures, i),
            at(curvatures, i),
        );
        done = done.max(slope).max(curvature);
    }
    done
}

// A fit of an accepted card's knots can still meet 8, 9 or 10.
fn notes(rt: HostRuntime, card_file: Source, card: Card) -> Done {
    let mut slopes = [0i32; Kind::MOST];
    let mut curvatures = [0i32; Kind::MOST];
    let fresh = refit::refit(card_file.bytes, &mut slopes, &mut curvatures);
    if fresh.number != 0 {
        return crate::tell::line(
            rt,
            card_file.name,
            format_args!(
                ": note: a fresh fit of its knots is refused with {} at knot {}",
                fresh.number, fresh.place
            ),
        );
    }
    compare(rt, card_file.name, card, &slopes, &curvatures)
}

// Of a card that is accepted.
pub(crate) fn report(
    rt: HostRuntime,
    card_file: Source,
    kind: Kind,
    card: Card,
    care: Care,
) -> Done {
    let name = card_file.name;
    let readings = Readings::of(card_file.bytes, first_minute(card));
    let span = Span::of(&readings);
    let furthest = swing::swing(card_file.bytes);
    let said = summary(rt, name, kind, card, span, furthest);
    let below = warnings(rt, name, &readings, Side::Below);
    let above = warnings(rt, name, &readings, Side::Above);
    let beyond = crate::swings::report(rt, card_file, furthest, care);
    let noted = notes(rt, card_file, card);
    let warned = said.max(below).max(above).max(beyond);
    warned.max(noted).max(care.judge(span.leaves()))
}
