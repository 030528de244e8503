// One book for the rooms: its own test, and the part of it that holds a room's card. Document 02, order 3.
// None of the public functions asks anything of its caller.
#![tactic(auto)]

ghost use Rattle.std.specs.Prelude.{◌≡◌, ◌≤◌};
ghost use Rattle.answer.specs.Answer.{refused};
ghost use Rattle.answer.specs.Judge.{number_of, verdict_of};
ghost use Rattle.card.specs.Answers.{own as card-own};
ghost use Rattle.book.specs.Book.{closes, book as the_book};
ghost use Rattle.book.specs.Lookup.{in_use, part, look_up, spot_at, spot_of, spot};
ghost use Rattle.book.specs.Steps.{step_of, step_at, past, walked_of, walked};

use answer::{Judged, Reason, Refusal};
use opened::Opened;
use record::Cursor;

// ---- a book's records

// What stands at an offset of a book: a room's record, with the offset behind it; the closing record; or neither.
#[derive(Clone, Copy)]
pub enum Step {
    Room { room: u16, next: usize },
    Close,
    Wrong,
}

#[tactic(auto, using(record::proofs::Records::standing), unfolding(crate::specs::Book::closes))]
fn closes(book: &[u8], at: usize) -> bool
    ensures { result ≡ closes book.now at }
{
    record::is_at(book, at, 3, 0) && at + 4 <= Used::MOST
}

// The offset may be any, and so may the bytes.
pub fn step_at(book: &[u8], at: usize) -> Step
    ensures { step_of at result ≡ step_at book.now at }
{
    if closes(book, at) {
        return Step::Close;
    }
    if book.len() < at || book.len() - at < 2 {
        return Step::Wrong;
    }
    let length = little_endian::read_u16(book, at);
    let Ok(body) = Cursor::new(at).read(book, 5, length) else {
        return Step::Wrong;
    };
    if length < 2 || Used::MOST < body.next.at {
        return Step::Wrong;
    }
    Step::Room {
        room: little_endian::read_u16(book, body.start),
        next: body.next.at,
    }
}

// ---- one walk over a book

// What a walk has met: the bytes that it has passed; where a room's record stands, or would stand; and its bytes there, 0 where it is absent.
#[derive(Clone, Copy, Default)]
pub struct Slot {
    pub bytes: usize,
    pub at: usize,
    pub size: usize,
}

impl Slot {
    // Past the record of a room, which ends at `next`.
    #[tactic(auto, unfolding(crate::specs::Steps::past))]
    fn past(self, room: u16, here: u16, next: usize) -> Slot
        requires { self.bytes ≤ next }
        ensures { result ≡ past room here next self }
    {
        let mut slot = Slot {
            bytes: next,
            ..self
        };
        if here < room {
            slot.at = next;
        }
        if here == room {
            slot.size = next - self.bytes;
        }
        slot
    }
}

// A record after the other: a 22 is kept, and told where the closing record is met.
pub fn walk(book: &[u8], room: u16) -> Result<Slot, Refusal>
    ensures { walked_of result ≡ walked room book.now }
{
    let mut slot = Slot::default();
    let mut low: u32 = 0;
    let mut rising = Ok(());
    loop {
        let at = slot.bytes;
        match step_at(book, at) {
            Step::Wrong => {
                return Err(Refusal {
                    reason: Reason::BadRecord,
                    place: at as u32,
                });
            }
            Step::Close => {
                rising?;
                return Ok(Slot {
                    bytes: slot.bytes + 4,
                    ..slot
                });
            }
            Step::Room { room: here, next } => {
                let falls = answer::refuse(Reason::UnsortedRoom, at as u32, (here as u32) < low);
                rising = answer::first(rising, falls);
                low = here as u32 + 1;
                slot = slot.past(room, here, next);
            }
        }
    }
}

// ---- the book's own test

// Zeros behind a refusal.
#[repr(C)]
#[derive(Clone, Copy)]
pub struct Used {
    pub number: u32,
    pub place: u32,
    pub bytes: u32,
}

impl Used {
    // A book has no more bytes.
    pub const MOST: usize = 16384;

    #[tactic(auto, unfolding(crate::specs::Lookup::in_use))]
    pub fn refused(number: u32, place: u32) -> Used
        ensures { result ≡ in_use (refused number place) }
    {
        Used {
            number,
            place,
            bytes: 0,
        }
    }
}

impl From<Refusal> for Used {
    ghost from_gives = { λ r u. u ≡ in_use (refused (number_of r.reason) r.place) };

    fn from(refusal: Refusal) -> Used {
        Used::refused(refusal.number(), refusal.place)
    }
}

// 14, then 22; and the bytes in use.
pub fn check(book: &[u8]) -> Used
    ensures { result ≡ in_use (the_book book.now) }
{
    match walk(book, 0) {
        Err(refusal) => Used::from(refusal),
        Ok(slot) => Used {
            number: 0,
            place: 0,
            bytes: slot.bytes as u32,
        },
    }
}

// ---- looking up

// Where a card stands in a book; zeros behind a refusal.
#[repr(C)]
#[derive(Clone, Copy)]
pub struct Spot {
    pub number: u32,
    pub place: u32,
    pub start: u32,
    pub length: u32,
}

#[tactic(auto, unfolding(crate::specs::Lookup::spot_at))]
impl From<Refusal> for Spot {
    ghost from_gives = { λ r p. p ≡ spot_at 0 (refused (number_of r.reason) r.place) };

    fn from(refusal: Refusal) -> Spot {
        Spot {
            number: refusal.number(),
            place: refusal.place,
            start: 0,
            length: 0,
        }
    }
}

// The card's own.
pub fn own(card: &[u8]) -> Judged
    ensures { verdict_of result ≡ card-own card.now }
{
    Opened::by_head(card).verdict
}

// 14, 22, 20, then that card's own, its places counted in the card.
fn found(book: &[u8], room: u16) -> Result<Spot, Refusal>
    ensures { spot_of result ≡ spot room book.now }
{
    let slot = walk(book, room)?;
    answer::refuse(Reason::NoRoom, 0, slot.size == 0)?;
    let start = slot.at + 6;
    let end = slot.at + slot.size;
    own(&book[start..end])?;
    Ok(Spot {
        number: 0,
        place: 0,
        start: start as u32,
        length: (end - start) as u32,
    })
}

// Where the room's card stands.
pub fn find(book: &[u8], room: u16) -> Spot
    ensures { result ≡ spot room book.now }
{
    match found(book, room) {
        Err(refusal) => Spot::from(refusal),
        Ok(spot) => spot,
    }
}

// The part of the book that holds the room's card; an empty part on refusal.
pub fn lookup(book: &[u8], room: u16) -> &[u8]
    ensures { result.now ≡ part (look_up room book.now) }
{
    let found = find(book, room);
    let start = found.start as usize;
    let end = start + (found.length as usize);
    &book[start..end]
}
