// Records, and the cursor that finds one: document 01, "Card bytes". Any offset and any bytes are answered.
#![tactic(auto)]

ghost use Rattle.std.specs.Prelude.{◌≡◌};
ghost use Rattle.record.specs.Record.{is_at, found_of, record_at};

// Whether a whole record of the kind and the length stands at an offset, which may be any.
#[tactic(auto, unfolding(crate::specs::Record::is_at))]
pub fn is_at(list: &[u8], at: usize, kind: u16, length: u16) -> bool
    ensures { result ≡ is_at list.now at kind length }
{
    at <= list.len()
        && 4 + length as usize <= list.len() - at
        && little_endian::read_u16(list, at) == length
        && little_endian::read_u16(list, at + 2) == kind
}

// Where the next record is due.
#[derive(Clone, Copy)]
pub struct Cursor {
    pub at: usize,
}

// A record's body, and the cursor behind it.
#[derive(Clone, Copy)]
pub struct Body {
    pub start: usize,
    pub next: Cursor,
}

impl Cursor {
    // "constructor functions of the card and cursor types"
    pub fn new(at: usize) -> Cursor
        ensures { result.at ≡ at }
    {
        Cursor { at }
    }

    // The body; or the offset of a record that is cut short or of another kind or length. The offset may be any,
    // and so may the bytes: 14 stands for all that is no such record.
    #[tactic(auto, using(crate::proofs::Records::standing, crate::proofs::Records::found, crate::proofs::Records::bad))]
    pub fn read(self, list: &[u8], kind: u16, length: u16) -> Result<Body, usize>
        ensures { found_of result ≡ record_at list.now self.at kind length }
    {
        if !is_at(list, self.at, kind, length) {
            return Err(self.at);
        }
        let start = self.at + 4;
        Ok(Body {
            start,
            next: Cursor::new(start + length as usize),
        })
    }
}
