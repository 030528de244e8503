// Numbers of up to 64 bits in decimal, and words, written into a lent buffer. Each function here asks for the room of what it writes, and answers the offset
// behind it.
#![tactic(auto)]

ghost use Rattle.std.specs.Prelude.{◌≡◌, ◌+◌, ◌≤◌, ◌<◌, [], ◌∷◌, ◌++◌, nat_abs, length};
ghost use Rattle.decimal.specs.Put.{Put};
ghost use Rattle.decimal.specs.Decimal.{decimal, signed, field};

pub fn put_byte(text: &mut [u8], at: usize, byte: u8) -> usize
    requires { at < length text.old }
    ensures { Put (byte ∷ []) text.old text.new at result }
{
    text[at] = byte;
    at + 1
}

pub fn put_words(text: &mut [u8], at: usize, words: &[u8]) -> usize
    requires { at + length words.now ≤ length text.old }
    ensures { Put words.now text.old text.new at result }
{
    let end = at + words.len();
    text[at..end].copy_from_slice(words);
    end
}

pub fn put_decimal(text: &mut [u8], at: usize, number: u64) -> usize
    requires { at + length (decimal number) ≤ length text.old }
    ensures { Put (decimal number) text.old text.new at result }
{
    let digit = 48 + (number % 10) as u8;
    if number < 10 {
        return put_byte(text, at, digit);
    }
    let next = put_decimal(text, at, number / 10);
    put_byte(text, next, digit)
}

pub fn magnitude(number: i64) -> u64
    ensures { result ≡ nat_abs number }
{
    number.unsigned_abs()
}

pub fn put_signed(text: &mut [u8], at: usize, number: i64) -> usize
    requires { at + length (signed number) ≤ length text.old }
    ensures { Put (signed number) text.old text.new at result }
{
    if number < 0 {
        let next = put_byte(text, at, b'-');
        return put_decimal(text, next, magnitude(number));
    }
    put_decimal(text, at, magnitude(number))
}

// A number, and the byte that parts it from the next one or ends the line.
pub fn put_field(text: &mut [u8], at: usize, number: i64, parting: u8) -> usize
    requires { at + length (field number parting) ≤ length text.old }
    ensures { Put (field number parting) text.old text.new at result }
{
    let next = put_signed(text, at, number);
    put_byte(text, next, parting)
}

// Words, and a number behind them.
pub fn put_worded(text: &mut [u8], at: usize, words: &[u8], number: u64) -> usize
    requires { at + length (words.now ++ decimal number) ≤ length text.old }
    ensures { Put (words.now ++ decimal number) text.old text.new at result }
{
    let next = put_words(text, at, words);
    put_decimal(text, next, number)
}
