// What the lines are made of: verdicts and lists.
use std::fmt;
use std::fmt::{Display, Formatter, Write};

// `ok` or `refused NUMBER at PLACE`.
#[derive(Clone, Copy)]
pub(crate) struct Verdict(pub(crate) u32, pub(crate) u32);

impl Display for Verdict {
    fn fmt<W: Write>(&self, f: &mut Formatter<W>) -> fmt::Result {
        let Verdict(number, place) = *self;
        if number == 0 && place == 0 {
            return f.write_str("ok");
        }
        write!(f, "refused {number} at {place}")
    }
}

// Each number behind a blank.
#[derive(Clone, Copy)]
pub(crate) struct Numbers<'a, T>(pub(crate) &'a [T]);

impl<T: Display> Display for Numbers<'_, T> {
    fn fmt<W: Write>(&self, f: &mut Formatter<W>) -> fmt::Result {
        for number in self.0 {
            write!(f, " {number}")?;
        }
        Ok(())
    }
}

// Each byte in two hexadecimal digits.
#[derive(Clone, Copy)]
pub(crate) struct Bytes<'a>(pub(crate) &'a [u8]);

impl Display for Bytes<'_> {
    fn fmt<W: Write>(&self, f: &mut Formatter<W>) -> fmt::Result {
        for byte in self.0 {
            write!(f, " {byte:02x}")?;
        }
        Ok(())
    }
}
