// A word as a whole number in decimal: a minute, an ordinate, a slope, a number among a program's arguments.
// Any bytes are answered.
#![tactic(auto)]

ghost use Rattle.std.specs.Prelude.{◌≡◌, true, Ok};
ghost use Rattle.decimal.specs.Decimal.{value};
ghost use Rattle.numeral.specs.Number.{number_of, plain, starts, all_digits, padded, at_most, natural, above, below, signed_number, narrowed, lone_minus, ordinate};

use split::Mark;

// What is wrong with a word of a text, or with the whole of it, in the order of the numbers of its sentences.
#[derive(Clone, Copy, PartialEq, Eq)]
pub enum Wrong {
    NotWhole = 1,
    LeadingZero = 2,
    TooLarge = 3,
    TooFew = 4,
    TooMany = 5,
    TooLong = 6,
    // Where the sheet is not to be mended.
    Hole = 7,
    // A '@' with no name behind it.
    Nameless = 8,
    NoSlope = 9,
    // A knot without a slope behind one with a slope, and the other way.
    Slopeless = 10,
    OddSlope = 11,
    // A slope where the sheet is to be mended.
    Unmended = 12,
}

impl Wrong {
    // The number of its sentence.
    pub fn number(self) -> u32
        ensures { result ≡ number_of self }
    {
        self as u32
    }
}

// Whether its first byte is this one.
#[tactic(auto, using(crate::proofs::Numbers::starts_by, crate::proofs::Numbers::starts_none))]
pub fn starts(word: &[u8], byte: u8) -> bool
    ensures { result ≡ starts byte word.now }
{
    0 < word.len() && word[0] == byte
}

fn all_digits(word: &[u8]) -> bool
    ensures { result ≡ all_digits word.now }
{
    0 < word.len() && split::stop(Mark::NoDigit, word) == word.len()
}

fn padded(word: &[u8]) -> bool
    ensures { result ≡ padded word.now }
{
    1 < word.len() && starts(word, b'0')
}

// A word that can be shown as it is.
#[tactic(auto, unfolding(crate::specs::Number::plain))]
pub fn plain(word: &[u8]) -> bool
    ensures { result ≡ plain word.now }
{
    if 32 < word.len() {
        return false;
    }
    0 < word.len() && split::stop(Mark::Hidden, word) == word.len()
}

fn value(digits: &[u8], most: u32) -> Result<u32, Wrong>
    requires { all_digits digits.now ≡ true }
    ensures { result ≡ at_most most (value digits.now) }
{
    let mut sum: u64 = 0;
    for digit in digits {
        sum = 10 * sum + (*digit - b'0') as u64;
        if (most as u64) < sum {
            return Err(Wrong::TooLarge);
        }
    }
    Ok(sum as u32)
}

// A whole number; also for an argument of a program.
#[tactic(auto, unfolding(crate::specs::Number::natural))]
pub fn natural(word: &[u8], most: u32) -> Result<u32, Wrong>
    ensures { result ≡ natural most word.now }
{
    if !all_digits(word) {
        return Err(Wrong::NotWhole);
    }
    if padded(word) {
        return Err(Wrong::LeadingZero);
    }
    value(word, most)
}

// A minus and nothing behind it.
fn lone_minus(word: &[u8]) -> bool
    ensures { result ≡ lone_minus word.now }
{
    word.len() == 1 && starts(word, b'-')
}

#[tactic(auto, unfolding(crate::specs::Number::above))]
fn above(digits: &[u8]) -> Result<i32, Wrong>
    ensures { result ≡ above (natural 2147483647 digits.now) }
{
    let n = natural(digits, 2147483647)?;
    Ok(n as i32)
}

// The negative numbers reach one further than the others, so one goes by its complement.
#[tactic(auto, unfolding(crate::specs::Number::below))]
fn below(digits: &[u8]) -> Result<i32, Wrong>
    ensures { result ≡ below (natural 2147483648 digits.now) }
{
    let n = natural(digits, 2147483648)?;
    if n == 0 {
        return Err(Wrong::LeadingZero);
    }
    Ok(!((n - 1) as i32))
}

// A whole number with its sign.
#[tactic(auto, unfolding(crate::specs::Number::signed_number), using(crate::proofs::Numbers::starts_some))]
pub fn signed(word: &[u8]) -> Result<i32, Wrong>
    ensures { result ≡ signed_number word.now }
{
    if starts(word, b'-') {
        return below(split::from(word, 1));
    }
    above(word)
}

// An ordinate is held in 16 bits.
#[tactic(auto, unfolding(crate::specs::Number::narrowed))]
fn narrowed(number: i32) -> Result<Option<i16>, Wrong>
    ensures { result ≡ narrowed (Ok number) }
{
    match i16::try_from(number) {
        Ok(y) => Ok(Some(y)),
        Err(_) => Err(Wrong::TooLarge),
    }
}

// An ordinate, or None for a hole: a minus alone.
#[tactic(auto, unfolding(crate::specs::Number::ordinate, crate::specs::Number::narrowed))]
pub fn ordinate(word: &[u8]) -> Result<Option<i16>, Wrong>
    ensures { result ≡ ordinate word.now }
{
    if lone_minus(word) {
        return Ok(None);
    }
    narrowed(signed(word)?)
}
