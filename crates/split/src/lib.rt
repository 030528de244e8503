// The parts of a text: its lines, what of a line is no comment, and its words. Any bytes are answered.
#![tactic(auto)]

ghost use Rattle.std.specs.Prelude.{◌≡◌, ◌≤◌, [], length, drop, get_or, position};
ghost use Rattle.split.specs.Parts.{marks, stop, until, past, lines};

// What a reader looks for.
#[derive(Clone, Copy)]
pub enum Mark {
    LineEnd,
    Note,
    Blank,
    Word,
    NoDigit,
    Hidden,
}

#[tactic(auto, unfolding(crate::specs::Parts::marks))]
fn blank(byte: u8) -> bool
    ensures { result ≡ marks Mark.Blank byte }
{
    matches!(byte, b' ' | b'\t' | b'\r')
}

#[tactic(auto, unfolding(crate::specs::Parts::marks))]
fn marks(mark: Mark, byte: u8) -> bool
    ensures { result ≡ marks mark byte }
{
    match mark {
        Mark::LineEnd => byte == b'\n',
        Mark::Note => byte == b'#',
        Mark::Blank => blank(byte),
        Mark::Word => !blank(byte),
        Mark::NoDigit => !byte.is_ascii_digit(),
        Mark::Hidden => !byte.is_ascii_graphic(),
    }
}

fn first_marked(mark: Mark, text: &[u8]) -> Option<usize>
    ensures { result ≡ position (marks mark) text.now }
{
    text.iter().position(|byte| marks(mark, *byte))
}

// How many bytes stand before the first that is marked.
pub fn stop(mark: Mark, text: &[u8]) -> usize
    ensures { result ≡ stop mark text.now }
{
    first_marked(mark, text).unwrap_or(text.len())
}

// The bytes before the first that is marked.
pub fn until(mark: Mark, text: &[u8]) -> &[u8]
    ensures { result.now ≡ until mark text.now }
{
    let end = stop(mark, text);
    &text[..end]
}

pub fn from(text: &[u8], at: usize) -> &[u8]
    requires { at ≤ length text.now }
    ensures { result.now ≡ drop at text.now }
{
    &text[at..]
}

// The bytes from the first that is marked.
#[tactic(auto, using(crate::proofs::Stops::stop_le))]
pub fn past(mark: Mark, text: &[u8]) -> &[u8]
    ensures { result.now ≡ past mark text.now }
{
    let at = stop(mark, text);
    from(text, at)
}

// The line of that number, from 0; where there is none, nothing.
pub fn line_at(text: &[u8], n: u32) -> &[u8]
    ensures { result.now ≡ get_or (lines text.now) n [] }
{
    let mut at: usize = 0;
    for _ in 0..n {
        let end = at + until(Mark::LineEnd, from(text, at)).len();
        if end == text.len() {
            return from(text, end);
        }
        at = end + 1;
    }
    until(Mark::LineEnd, from(text, at))
}
