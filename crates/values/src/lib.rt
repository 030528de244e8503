// A pre-heater's table as text: its values, whole hundredths, one word each and any number of them on a line,
// and the line of each. Any bytes, of any length, are answered.
#![tactic(auto)]

ghost use Rattle.std.specs.Prelude.{◌≡◌, ◌<◌};
ghost use Rattle.split.specs.Parts.{words};
ghost use Rattle.text.specs.Sheet.{left};
ghost use Rattle.values.specs.Values.{most, no_values, with_value, taken, with_words, values, first_wrong, blamed};

use numeral::Wrong;
use split::Mark;
use text::{Blame, Sheet};

// How many values there are, and at the front of two arrays the values, and the line of each. What lists the
// table is lent its values as one list, as C lends them: so these are arrays.
#[derive(Drop)]
pub struct Values {
    pub count: usize,
    pub values: [i16; Values::MOST],
    pub lines: [u32; Values::MOST],
}

impl Values {
    // One more than a table has, so that 24 can be told.
    pub const MOST: usize = 21;

    #[tactic(auto, unfolding(crate::specs::Values::no_values))]
    fn new() -> Values
        ensures { result ≡ no_values }
    {
        Values {
            count: 0,
            values: [0; Values::MOST],
            lines: [0; Values::MOST],
        }
    }

    #[tactic(auto, unfolding(crate::specs::Values::with_value))]
    fn put_value(&mut self, line: u32, value: i16)
        requires { self.old.count < most }
        ensures { self.new ≡ with_value self.old line value }
    {
        let count = self.count;
        self.values[count] = value;
        self.lines[count] = line;
        self.count = count + 1;
    }

    // A table has no holes.
    #[tactic(auto, unfolding(crate::specs::Values::taken, text::specs::Sheet::left))]
    fn take(&mut self, line: u32, word: Result<Option<i16>, Wrong>) -> Result<(), Blame>
        requires { self.old.count < most }
        ensures { left result self.new ≡ taken self.old line word }
    {
        match word {
            Ok(Some(value)) => {
                self.put_value(line, value);
                Ok(())
            }
            Ok(None) => Err(Blame {
                wrong: Wrong::NotWhole,
                line,
            }),
            Err(wrong) => Err(Blame { wrong, line }),
        }
    }

    // The words of a line, up to the first that is no number, and while there is a place.
    fn take_words(&mut self, line: u32, text: &[u8]) -> Result<(), Blame>
        ensures { left result self.new ≡ with_words self.old line (words text.now) }
    {
        let first = split::past(Mark::Word, text);
        if first.len() == 0 {
            return Ok(());
        }
        if Values::MOST <= self.count {
            return Ok(());
        }
        let word = split::until(Mark::Blank, first);
        self.take(line, numeral::ordinate(word))?;
        self.take_words(line, split::past(Mark::Blank, first))
    }

    pub fn read(text: &[u8]) -> Result<Values, Blame>
        ensures { result ≡ values text.now }
    {
        if Sheet::LONGEST < text.len() {
            return Err(Blame {
                wrong: Wrong::TooLong,
                line: 0,
            });
        }
        let mut values = Values::new();
        let mut line: u32 = 1;
        let mut at: usize = 0;
        // only the line that was found says where the next one starts: a for would be no plainer
        while at <= text.len() {
            let found = split::until(Mark::LineEnd, split::from(text, at));
            values.take_words(line, split::until(Mark::Note, found))?;
            line += 1;
            at += found.len() + 1;
        }
        Ok(values)
    }
}

fn first_wrong(text: &[u8]) -> &[u8]
    ensures { result.now ≡ first_wrong (words text.now) }
{
    let first = split::past(Mark::Word, text);
    if first.len() == 0 {
        return first;
    }
    let word = split::until(Mark::Blank, first);
    match numeral::ordinate(word) {
        Ok(Some(_)) => first_wrong(split::past(Mark::Blank, first)),
        Ok(None) => word,
        Err(_) => word,
    }
}

// The word for which the line of that number, from 1, is refused.
pub fn blamed(text: &[u8], line: u32) -> &[u8]
    ensures { result.now ≡ blamed text.now line }
{
    first_wrong(text::bare_line(text, line))
}
