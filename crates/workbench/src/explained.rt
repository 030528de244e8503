// Why did it say that: what a reading off a card is made of, and which jump a card was refused for. The
// numbers are those of the crate `explain` and of the card; here they are laid out in lines.
ghost use Rattle.std.specs.Prelude.{◌≤◌};

use crate::places::at;
use crate::source::Source;
use crate::tell::{Done, Text, Undone};
use answer::Reason;
use decode::Card;
use explain::Explained;
use opened::Opened;
use std::fmt::Write;

// ---- a reading

// What a part adds to the value: whole hundredths, and ten thousandths of one, cut and not rounded.
#[derive(Clone, Copy, PartialEq, Eq)]
struct Cut {
    whole: u64,
    rest: u64,
}

impl Cut {
    const NOTHING: Cut = Cut { whole: 0, rest: 0 };

    // Ten thousand times as much fits 64 bits, and no denominator is larger: a gap of 120 minutes has a
    // fifth of it.
    const MOST: u64 = 1_000_000_000_000_000;

    fn of(part: u64, over: u64) -> Cut {
        if over == 0 || Cut::MOST < over {
            return Cut::NOTHING;
        }
        let left = part % over;
        Cut {
            whole: part / over,
            rest: left * 10_000 / over,
        }
    }
}

// `-51.1838`. What is cut to nothing has no sign.
fn hundredths(part: i64, over: u64) -> Text {
    let cut = Cut::of(part.unsigned_abs(), over);
    let sign = if part < 0 && cut != Cut::NOTHING {
        "-"
    } else {
        ""
    };
    let mut text = Text::new();
    let _ = write!(text, "{sign}{}.{:04}", cut.whole, cut.rest);
    text
}

// What the card has under a name, what the part is, and the hundredths, in columns: they have at most 8, 20 and
// 11 characters, and two blanks before them.
fn row(rt: HostRuntime, name: &str, number: i32, part: i64, over: u64) -> Done {
    let hundredths = hundredths(part, over);
    crate::tell::line(
        rt,
        b"",
        format_args!(
            "{name:<15}{number:>10}{part:>22}{:>13}",
            hundredths.as_str()
        ),
    )
}

fn sum_row(rt: HostRuntime, sum: i64, over: u64, value: i32) -> Done {
    let hundredths = hundredths(sum, over);
    crate::tell::line(
        rt,
        b"",
        format_args!(
            "{:<25}{sum:>22}{:>13}  read as {value}",
            "sum",
            hundredths.as_str()
        ),
    )
}

// `minute 80: 20 minutes into gap 1, from minute 60 to 120; each part is over 6370099200000`.
fn heading(rt: HostRuntime, minute: u16, told: Explained, card: Card) -> Done {
    let gap = told.gap as usize;
    let passed = told.minutes;
    let minutes = if passed == 1 { "minute" } else { "minutes" };
    let over = told.denominator;
    crate::tell::line(
        rt,
        b"",
        format_args!(
            "minute {minute}: {passed} {minutes} into gap {gap}, from minute {} to {}; each part is over {over}",
            at(&card.minutes, gap),
            at(&card.minutes, gap + 1)
        ),
    )
}

// What cannot be written is told once.
fn rows(rt: HostRuntime, told: Explained, card: Card) -> Done {
    let over = told.denominator.unsigned_abs();
    let a = told.gap as usize;
    let b = a + 1;
    let ys = card.ordinates;
    let ms = card.slopes;
    let cs = card.curvatures;
    row(rt, "left ordinate", at(&ys, a) as i32, told.ordinate, over)?;
    row(
        rt,
        "right ordinate",
        at(&ys, b) as i32,
        told.ordinate1,
        over,
    )?;
    row(rt, "left slope", at(&ms, a), told.slope, over)?;
    row(rt, "right slope", at(&ms, b), told.slope1, over)?;
    row(rt, "left curvature", at(&cs, a), told.curvature, over)?;
    row(rt, "right curvature", at(&cs, b), told.curvature1, over)
}

// ---- a refusal with 10

// The minutes of the gap behind knot i.
fn gap_behind(card: Card, i: usize) -> u16
    requires { i ≤ 4294967295 }
{
    at(&card.minutes, i + 1).saturating_sub(at(&card.minutes, i))
}

// `8^3 * 8^3`, of the gaps beside a knot; at an end there is one.
fn powers(card: Card, knot: u32, order: u32) -> Text {
    let mut text = Text::new();
    let i = knot as usize;
    if i == 0 {
        let behind = gap_behind(card, 0);
        let _ = write!(text, "{behind}^{order}");
        return text;
    }
    let before = gap_behind(card, i - 1);
    let _ = write!(text, "{before}^{order}");
    if i + 1 < card.knots {
        let behind = gap_behind(card, i);
        let _ = write!(text, " * {behind}^{order}");
    }
    text
}

// `: knot 2, minute 16: refused 10: the third derivative jumps by 589824, which is 196608 more than the
// 393216 that is allowed; each over 8^3 * 8^3`.
fn because(rt: HostRuntime, name: &[u8], told: Explained, card: Card) -> Undone {
    let knot = told.knot;
    let minute = at(&card.minutes, knot as usize);
    let which = if told.order == 3 { "third" } else { "fourth" };
    let jump = told.jump.unsigned_abs();
    let allowed = told.allowance.unsigned_abs();
    let more = jump.saturating_sub(allowed);
    let powers = powers(card, knot, told.order);
    let place = format_args!(": knot {knot}, minute {minute}: refused 10");
    let jumps = format_args!("the {which} derivative jumps by {jump}");
    let allowance = format_args!("{more} more than the {allowed} that is allowed");
    crate::tell::complain_line(
        rt,
        name,
        format_args!(
            "{place}: {jumps}, which is {allowance}; each over {}",
            powers.as_str()
        ),
    );
    Undone::Refused
}

// As the readings at minutes tell it, but for 10.
fn refused(rt: HostRuntime, name: &[u8], minute: u16, told: Explained, card: Card) -> Undone {
    if told.number == Reason::Jump.number() {
        return because(rt, name, told, card);
    }
    if told.number == Reason::Outside.number() {
        return crate::tell::refused_at(rt, name, minute, told.number, told.place);
    }
    crate::tell::refused(rt, name, told.number, told.place)
}

// ---- of a card's bytes

pub(crate) fn print(rt: HostRuntime, source: Source, minute: u16) -> Done {
    let told = explain::explain(source.bytes, minute);
    let sum = told.sum();
    let opened = Opened::by_head(source.bytes);
    if told.number != 0 {
        return Err(refused(rt, source.name, minute, told, opened.card));
    }
    heading(rt, minute, told, opened.card)?;
    rows(rt, told, opened.card)?;
    let reading = card::reading(source.bytes, minute);
    let over = told.denominator.unsigned_abs();
    sum_row(rt, sum, over, reading.value)
}
