// A sheet as text: a line is a knot, its minute and its ordinate, or in place of the ordinate a hole, or '@'
// and the name of a log's file; and behind these, on every line or on none, its slope in card units. Any
// bytes, of any length, are answered.
#![tactic(auto)]

ghost use Rattle.std.specs.Prelude.{◌≡◌, ◌<◌, Ok};
ghost use Rattle.split.specs.Parts.{words};
ghost use Rattle.numeral.specs.Number.{natural};
ghost use Rattle.curve.specs.Card.{latest};
ghost use Rattle.text.specs.Sheet.{with_ordinate, behind, knot, with_slope, line_by, line, bare_line, blamed_of, blamed_third, blamed_by, blamed, named, named_by, log_name, most, no_knots, with_knot, left, without_slope, sloping, taken, with_line, sheet};

use numeral::Wrong;
use split::Mark;

// What a line is, where nothing is wrong with it. The minute of a log is its first one.
#[derive(Drop)]
pub enum Line {
    Empty,
    Knot {
        minute: u16,
        ordinate: i16,
        slope: Option<i32>,
    },
    Hole {
        minute: u16,
    },
    Log {
        minute: u16,
        slope: Option<i32>,
    },
}

impl Line {
    // The largest minute that can be written down.
    const LATEST: u32 = 65535;

    #[tactic(auto, unfolding(crate::specs::Sheet::with_ordinate))]
    fn with_ordinate(minute: u16, ordinate: Option<i16>) -> Line
        ensures { Ok result ≡ with_ordinate minute (Ok ordinate) }
    {
        match ordinate {
            None => Line::Hole { minute },
            Some(ordinate) => Line::Knot {
                minute,
                ordinate,
                slope: None,
            },
        }
    }

    #[tactic(auto, unfolding(crate::specs::Sheet::behind, crate::specs::Sheet::with_ordinate))]
    fn behind(minute: u16, word: &[u8]) -> Result<Line, Wrong>
        ensures { result ≡ behind minute word.now }
    {
        if numeral::starts(word, b'@') {
            if word.len() == 1 {
                return Err(Wrong::Nameless);
            }
            return Ok(Line::Log {
                minute,
                slope: None,
            });
        }
        Ok(Line::with_ordinate(minute, numeral::ordinate(word)?))
    }

    #[tactic(auto, unfolding(crate::specs::Sheet::knot_by))]
    fn knot(minute: &[u8], word: &[u8]) -> Result<Line, Wrong>
        ensures { result ≡ knot minute.now word.now }
    {
        let x = numeral::natural(minute, Line::LATEST)?;
        Line::behind(x as u16, word)
    }

    // Behind a hole a third word is one too many.
    #[tactic(auto, unfolding(crate::specs::Sheet::with_slope))]
    fn with_slope(self, number: Result<i32, Wrong>) -> Result<Line, Wrong>
        ensures { result ≡ with_slope (Ok self) number }
    {
        match self {
            Line::Knot {
                minute,
                ordinate,
                slope: None,
            } => {
                let slope = Some(number.map_err(|_| Wrong::NoSlope)?);
                Ok(Line::Knot {
                    minute,
                    ordinate,
                    slope,
                })
            }
            Line::Log {
                minute,
                slope: None,
            } => {
                let slope = Some(number.map_err(|_| Wrong::NoSlope)?);
                Ok(Line::Log { minute, slope })
            }
            Line::Hole { .. } => Err(Wrong::TooMany),
            _ => Ok(self),
        }
    }

    fn of_words(text: &[u8]) -> Result<Line, Wrong>
        ensures { result ≡ line_by (words text.now) }
    {
        let first = split::past(Mark::Word, text);
        if first.len() == 0 {
            return Ok(Line::Empty);
        }
        let second = split::past(Mark::Word, split::past(Mark::Blank, first));
        if second.len() == 0 {
            return Err(Wrong::TooFew);
        }
        let two = Line::knot(
            split::until(Mark::Blank, first),
            split::until(Mark::Blank, second),
        );
        let third = split::past(Mark::Word, split::past(Mark::Blank, second));
        if third.len() == 0 {
            return two;
        }
        let fourth = split::past(Mark::Word, split::past(Mark::Blank, third));
        if 0 < fourth.len() {
            return Err(Wrong::TooMany);
        }
        two?.with_slope(numeral::signed(split::until(Mark::Blank, third)))
    }

    fn of(text: &[u8]) -> Result<Line, Wrong>
        ensures { result ≡ line text.now }
    {
        Line::of_words(split::until(Mark::Note, text))
    }
}

// Of two words the minute, where it is wrong, else the other.
#[tactic(auto, unfolding(crate::specs::Sheet::blamed_of))]
fn blamed_two<'a>(minute: &'a [u8], word: &'a [u8]) -> &'a [u8]
    ensures { result.now ≡ blamed_of (natural latest minute.now) minute.now word.now }
{
    match numeral::natural(minute, Line::LATEST) {
        Err(_) => minute,
        Ok(_) => word,
    }
}

// Of three words the last, where the two before it are a knot.
#[tactic(auto, unfolding(crate::specs::Sheet::blamed_third))]
fn blamed_three<'a>(minute: &'a [u8], word: &'a [u8], third: &'a [u8]) -> &'a [u8]
    ensures { result.now ≡ blamed_third (knot minute.now word.now) (blamed_of (natural latest minute.now) minute.now word.now) third.now }
{
    match Line::knot(minute, word) {
        Err(_) => blamed_two(minute, word),
        Ok(_) => third,
    }
}

fn blamed_word(text: &[u8]) -> &[u8]
    ensures { result.now ≡ blamed_by (words text.now) }
{
    let first = split::past(Mark::Word, text);
    if first.len() == 0 {
        return first;
    }
    let minute = split::until(Mark::Blank, first);
    let second = split::past(Mark::Word, split::past(Mark::Blank, first));
    if second.len() == 0 {
        return minute;
    }
    let word = split::until(Mark::Blank, second);
    let third = split::past(Mark::Word, split::past(Mark::Blank, second));
    if third.len() == 0 {
        return blamed_two(minute, word);
    }
    let fourth = split::past(Mark::Word, split::past(Mark::Blank, third));
    if 0 < fourth.len() {
        return split::until(Mark::Blank, fourth);
    }
    blamed_three(minute, word, split::until(Mark::Blank, third))
}

// What of the line of that number, from 1, is no comment; nothing where there is none.
pub fn bare_line(text: &[u8], line: u32) -> &[u8]
    ensures { result.now ≡ bare_line text.now line }
{
    if line == 0 {
        return split::from(text, text.len());
    }
    split::until(Mark::Note, split::line_at(text, line - 1))
}

// The word for which the line of that number, from 1, is refused.
pub fn blamed(text: &[u8], line: u32) -> &[u8]
    ensures { result.now ≡ blamed text.now line }
{
    blamed_word(bare_line(text, line))
}

fn named(word: &[u8]) -> &[u8]
    ensures { result.now ≡ named word.now }
{
    if numeral::starts(word, b'@') {
        return split::from(word, 1);
    }
    split::from(word, word.len())
}

fn named_word(text: &[u8]) -> &[u8]
    ensures { result.now ≡ named_by (words text.now) }
{
    let first = split::past(Mark::Word, text);
    let second = split::past(Mark::Word, split::past(Mark::Blank, first));
    named(split::until(Mark::Blank, second))
}

// What stands behind the '@' of the second word on the line of that number, from 1; nothing where there is none.
pub fn log_name(text: &[u8], line: u32) -> &[u8]
    ensures { result.now ≡ log_name text.now line }
{
    named_word(bare_line(text, line))
}

// What is wrong, and on which line, from 1; 0 where it is the whole text.
#[derive(Clone, Copy)]
pub struct Blame {
    pub wrong: Wrong,
    pub line: u32,
}

// How many knots there are, whether they have slopes, and at the front of five arrays their numbers, the line
// of each, and whether it is a log's: its minute is then the log's first one, and its ordinate 0. A slope that
// is not there is 0. A fit is lent one list for each kind of number, as C lends them: so these are arrays.
#[derive(Clone, Copy)]
pub struct Sheet {
    pub knots: usize,
    pub sloped: bool,
    pub minutes: [u16; Sheet::MOST],
    pub ordinates: [i16; Sheet::MOST],
    pub slopes: [i32; Sheet::MOST],
    pub lines: [u32; Sheet::MOST],
    pub logs: [bool; Sheet::MOST],
}

impl Sheet {
    // One more than a card has, so that 2 can be told.
    pub const MOST: usize = 65;

    // One byte less than a large buffer has, so that a longer text can be told.
    pub const LONGEST: usize = 65535;

    #[tactic(auto, unfolding(crate::specs::Sheet::no_knots))]
    fn new() -> Sheet
        ensures { result ≡ no_knots }
    {
        Sheet {
            knots: 0,
            sloped: false,
            minutes: [0; Sheet::MOST],
            ordinates: [0; Sheet::MOST],
            slopes: [0; Sheet::MOST],
            lines: [0; Sheet::MOST],
            logs: [false; Sheet::MOST],
        }
    }

    #[tactic(auto, unfolding(crate::specs::Sheet::with_knot))]
    fn put_knot(
        &mut self,
        line: u32,
        minute: u16,
        ordinate: i16,
        log: bool,
        sloped: bool,
        slope: i32,
    )
        requires { self.old.knots < most }
        ensures { self.new ≡ with_knot self.old line minute ordinate log sloped slope }
    {
        let knots = self.knots;
        self.minutes[knots] = minute;
        self.ordinates[knots] = ordinate;
        self.slopes[knots] = slope;
        self.lines[knots] = line;
        self.logs[knots] = log;
        self.sloped = sloped;
        self.knots = knots + 1;
    }

    // All knots before it have none either.
    #[tactic(auto, unfolding(crate::specs::Sheet::without_slope, crate::specs::Sheet::left))]
    fn without_slope(
        &mut self,
        line: u32,
        minute: u16,
        ordinate: i16,
        log: bool,
    ) -> Result<(), Wrong>
        requires { self.old.knots < most }
        ensures { left result self.new ≡ without_slope self.old line minute ordinate log }
    {
        if self.sloped {
            return Err(Wrong::Slopeless);
        }
        self.put_knot(line, minute, ordinate, log, false, 0);
        Ok(())
    }

    // All knots before it have one too.
    #[tactic(auto, unfolding(crate::specs::Sheet::sloping, crate::specs::Sheet::left))]
    fn sloping(
        &mut self,
        mends: bool,
        line: u32,
        minute: u16,
        ordinate: i16,
        log: bool,
        slope: i32,
    ) -> Result<(), Wrong>
        requires { self.old.knots < most }
        ensures { left result self.new ≡ sloping mends self.old line minute ordinate log slope }
    {
        if mends {
            return Err(Wrong::Unmended);
        }
        if !self.sloped && 0 < self.knots {
            return Err(Wrong::OddSlope);
        }
        self.put_knot(line, minute, ordinate, log, true, slope);
        Ok(())
    }

    #[tactic(auto, unfolding(crate::specs::Sheet::taken, crate::specs::Sheet::left))]
    fn take(&mut self, mends: bool, line: u32, found: Line) -> Result<(), Wrong>
        requires { self.old.knots < most }
        ensures { left result self.new ≡ taken mends self.old line found }
    {
        match found {
            Line::Empty => Ok(()),
            Line::Knot {
                minute,
                ordinate,
                slope: None,
            } => self.without_slope(line, minute, ordinate, false),
            Line::Knot {
                minute,
                ordinate,
                slope: Some(m),
            } => self.sloping(mends, line, minute, ordinate, false, m),
            Line::Log {
                minute,
                slope: None,
            } => self.without_slope(line, minute, 0, true),
            Line::Log {
                minute,
                slope: Some(m),
            } => self.sloping(mends, line, minute, 0, true, m),
            Line::Hole { minute } => {
                if mends {
                    return self.without_slope(line, minute, holes::MARK, false);
                }
                Err(Wrong::Hole)
            }
        }
    }

    // A line with no knot leaves the sheet where it lies: it is lent, and never moved through a Result.
    #[tactic(auto, unfolding(crate::specs::Sheet::line_taken, crate::specs::Sheet::blaming, crate::specs::Sheet::left))]
    fn take_line(&mut self, mends: bool, line: u32, text: &[u8]) -> Result<(), Blame>
        requires { self.old.knots < most }
        ensures { left result self.new ≡ with_line mends self.old line text.now }
    {
        let found = Line::of(text).map_err(|wrong| Blame { wrong, line })?;
        self.take(mends, line, found)
            .map_err(|wrong| Blame { wrong, line })
    }

    // A hole is taken, as a knot with the mark for its ordinate, only where the sheet is to be mended.
    pub fn read(text: &[u8], mends: bool) -> Result<Sheet, Blame>
        ensures { result ≡ sheet mends text.now }
    {
        if Sheet::LONGEST < text.len() {
            return Err(Blame {
                wrong: Wrong::TooLong,
                line: 0,
            });
        }
        let mut sheet = Sheet::new();
        let mut line: u32 = 1;
        let mut at: usize = 0;
        // only the line that was found says where the next one starts: a for would be no plainer
        while sheet.knots < Sheet::MOST && at <= text.len() {
            let found = split::until(Mark::LineEnd, split::from(text, at));
            sheet.take_line(mends, line, found)?;
            line += 1;
            at += found.len() + 1;
        }
        Ok(sheet)
    }
}
