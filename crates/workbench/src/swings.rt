// Warnings of swings: the gaps of a card in which its curve goes further beyond the gap's two knots than a
// bound. How far it goes is what `swing` promises. A report on a card says them on standard output; where a
// card is made or put in they stand beside that, on standard error.
ghost use Rattle.std.specs.Prelude.{◌<◌};
ghost use Rattle.opened.specs.Readable.{Readable};

use crate::places::at;
use crate::source::Source;
use crate::tell::{Done, Stream, Undone};
use decode::Card;
use opened::Opened;
use std::fmt;
use std::fmt::{Display, Formatter, Write};
use swing::Swung;

// ---- what is cared for

// By how many hundredths a curve may go beyond its knots before it is warned of, and whether one that is
// warned of is refused.
#[derive(Clone, Copy)]
pub(crate) struct Care {
    bound: u32,
    strict: bool,
}

impl Care {
    // No ordinate is further from 0.
    const MOST: u16 = 20_000;

    // By the arguments of these numbers: the bound, and `strict` or another word. A bound that is none is told.
    pub(crate) fn asked_for(rt: HostRuntime, bound: usize, manner: usize) -> Result<Care, Undone> {
        let mut buffer = io::buffer();
        let word = crate::host::arg(rt, bound, &mut buffer);
        let asked = crate::arguments::whole(word).filter(|asked| *asked <= Care::MOST);
        let Some(bound) = asked else {
            complain(rt, word);
            return Err(Undone::Failed);
        };
        Ok(Care {
            bound: bound as u32,
            strict: is_strict(rt, manner),
        })
    }

    // The gap that goes furthest decides.
    fn warns(self, furthest: Swung) -> bool {
        self.bound < furthest.below || self.bound < furthest.above
    }

    // How an answer ends that is warned of, or is not.
    pub(crate) fn judge(self, warned: bool) -> Done {
        if warned && self.strict {
            return Err(Undone::Refused);
        }
        Ok(())
    }
}

fn complain(rt: HostRuntime, word: &[u8]) {
    crate::tell::complain(
        rt,
        b"kaihveto: --swing asks for hundredths, a whole number from 0 to 20000: '",
    );
    crate::tell::complain_line(rt, word, "' is none");
}

fn is_strict(rt: HostRuntime, i: usize) -> bool {
    let mut buffer = io::buffer();
    matches!(crate::host::arg(rt, i, &mut buffer), b"strict")
}

// ---- a line for each gap

// `:3` of a sheet's line, and nothing of a card.
#[derive(Clone, Copy)]
struct AtLine(Option<u32>);

impl Display for AtLine {
    fn fmt<W: Write>(&self, f: &mut Formatter<W>) -> fmt::Result {
        match self.0 {
            None => Ok(()),
            Some(line) => write!(f, ":{line}"),
        }
    }
}

// A gap by its two minutes, and of a sheet the line of its left knot; what else can be done about its swing.
#[derive(Clone, Copy)]
struct Gap {
    line: AtLine,
    from: u16,
    to: u16,
    advice: &'static str,
}

// How warnings are given: where to, behind which name, of a sheet with the lines of its knots, and beyond
// which bound.
#[derive(Clone, Copy)]
struct Warner<'a> {
    stream: Stream,
    name: &'a [u8],
    lines: &'a [u32],
    bound: u32,
}

impl Warner<'_> {
    // `a.sheet:3: warning: between minute 65 and 125 the curve goes 886 below both knots, lowest at 88: ..`
    fn warn(self, rt: HostRuntime, gap: Gap, by: u32, side: &str, minute: u16) -> Done {
        if by <= self.bound {
            return Ok(());
        }
        let Gap {
            line,
            from,
            to,
            advice,
        } = gap;
        let place = format_args!("{line}: warning: between minute {from} and {to}");
        let swing = format_args!("the curve goes {by} {side} at {minute}");
        self.stream.line(
            rt,
            self.name,
            format_args!("{place} {swing}: look at the knots beside it{advice}"),
        )
    }

    // Of the gap before knot i.
    fn gap(self, rt: HostRuntime, card: &Card, i: usize) -> Done
        requires readable { Readable card.now }
        requires i_nonzero { (0 < i) × (i < card.now.knots) }
    {
        let swing = swing::gap(card, i - 1);
        let gap = Gap {
            line: AtLine(self.lines.get(i - 1).copied()),
            from: at(&card.minutes, i - 1),
            to: at(&card.minutes, i),
            advice: if card.left == 0 {
                ""
            } else {
                ", or fit with --free"
            },
        };
        let below = self.warn(
            rt,
            gap,
            swing.below,
            "below both knots, lowest",
            swing.lowest,
        );
        let above = self.warn(
            rt,
            gap,
            swing.above,
            "above both knots, highest",
            swing.highest,
        );
        below.max(above)
    }

    fn gaps(self, rt: HostRuntime, card: &Card) -> Done
        requires { Readable card.now }
    {
        let mut done = Ok(());
        for i in 1..card.knots {
            done = done.max(self.gap(rt, card, i));
        }
        done
    }

    // Of a card by its bytes. A card that is refused is not warned of.
    #[tactic(auto, using(opened::proofs::Opening::accepted_readable))]
    fn card(self, rt: HostRuntime, bytes: &[u8]) -> Done {
        let opened = Opened::by_head(bytes);
        match opened.verdict {
            Err(_) => Ok(()),
            Ok(()) => self.gaps(rt, &opened.card),
        }
    }
}

// ---- what is done with them

// In a report: how far the curve goes beyond its knots.
#[derive(Clone, Copy)]
pub(crate) struct Beyond(pub(crate) Swung);

impl Display for Beyond {
    fn fmt<W: Write>(&self, f: &mut Formatter<W>) -> fmt::Result {
        let Beyond(swing) = self;
        let by = swing.below.max(swing.above);
        if by == 0 {
            return f.write_str("nowhere beyond its knots");
        }
        let minute = swing.minute;
        write!(f, "beyond its knots by {by} at {minute}")
    }
}

// In a report, behind it: a line for each, and how that ends.
pub(crate) fn report(rt: HostRuntime, source: Source, furthest: Swung, care: Care) -> Done {
    if !care.warns(furthest) {
        return Ok(());
    }
    let warner = Warner {
        stream: Stream::Output,
        name: source.name,
        lines: &[],
        bound: care.bound,
    };
    let said = warner.card(rt, source.bytes);
    said.max(care.judge(true))
}

// Where a card is made or put in: beside it, before anything is written; what is told of a curve that is
// refused for it stands behind. Of a sheet, with the lines of its knots.
pub(crate) fn allow(rt: HostRuntime, source: Source, lines: &[u32], care: Care) -> Done {
    if !care.warns(swing::swing(source.bytes)) {
        return Ok(());
    }
    let warner = Warner {
        stream: Stream::Error,
        name: source.name,
        lines,
        bound: care.bound,
    };
    let _ = warner.card(rt, source.bytes);
    let judged = care.judge(true);
    if judged.is_err() {
        crate::tell::complain_line(
            rt,
            source.name,
            ": not taken: --strict refuses a curve that is warned of",
        );
    }
    judged
}
