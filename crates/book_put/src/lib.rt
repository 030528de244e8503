// A card put into a book for a room, or in place of the one that is there. Document 02, order 3. What a user calls asks nothing of its caller.
#![tactic(auto)]

ghost use Rattle.std.specs.Prelude.{◌≡◌, ◌+◌, ◌≤◌, length};
ghost use Rattle.std.proofs.lemmas.List.Edits.{sets};
ghost use Rattle.answer.specs.Answer.{given};
ghost use Rattle.book.specs.Book.{most, entry_bytes, ◌giving◌, book as the_book};
ghost use Rattle.book.specs.Lookup.{used_of};
ghost use Rattle.book.specs.Steps.{walked};
ghost use Rattle.book_put.specs.Put.{entry, made, put, Puts};
ghost use Rattle.book_put.specs.Splice.{spliced};

use answer::{Reason, Refusal};
use book::{Slot, Used};

// A room's record.
fn put_record(buffer: &mut [u8], at: usize, room: u16, card: &[u8])
    requires { (at + (6 + length card.now) ≤ length buffer.old) × (length card.now ≤ most) }
    ensures { buffer.new ≡ sets buffer.old at (entry_bytes (entry room card.now)) }
{
    little_endian::write_u16(buffer, at, (2 + card.len()) as u16);
    little_endian::write_u16(buffer, at + 2, 5);
    little_endian::write_u16(buffer, at + 4, room);
    moves::copy_in(card, buffer, at + 6);
}

// In place of the `old` bytes at `at`, of a book of `used` bytes: what stands behind them moves, the closing record too.
fn splice(buffer: &mut [u8], at: usize, old: usize, used: usize, room: u16, card: &[u8])
    requires { (at + old ≤ used) × (used ≤ length buffer.old) × (used + (6 + length card.now) ≤ length buffer.old + old) × (length card.now ≤ most) }
    ensures { buffer.new ≡ spliced buffer.old at old used (entry_bytes (entry room card.now)) }
{
    let from = at + old;
    let to = at + (6 + card.len());
    moves::slide(buffer, from, to, used - from);
    put_record(buffer, at, room, card);
}

const FULL: Refusal = Refusal {
    reason: Reason::FullBook,
    place: 0,
};

// 21, by the size after the card is put in; then the writing.
fn put_at(buffer: &mut [u8], slot: Slot, room: u16, card: &[u8]) -> Result<Used, Refusal>
    requires { walked room buffer.old ≡ given slot }
    ensures { Puts
        (the_book buffer.old giving made (entry room card.now) (length buffer.old))
        buffer.old buffer.new (used_of result) }
{
    // so that no sum below can pass a word
    if Used::MOST < card.len() {
        return Err(FULL);
    }
    let bytes = slot.bytes - slot.size + (6 + card.len());
    if Used::MOST < bytes || buffer.len() < bytes {
        return Err(FULL);
    }
    splice(buffer, slot.at, slot.size, slot.bytes, room, card);
    Ok(Used {
        number: 0,
        place: 0,
        bytes: bytes as u32,
    })
}

// 14, 22, the new card's own, 21. A refusal writes nothing.
fn placed(buffer: &mut [u8], room: u16, card: &[u8]) -> Result<Used, Refusal>
    ensures { Puts (put room card.now buffer.old) buffer.old buffer.new (used_of result) }
{
    let slot = book::walk(buffer, room)?;
    book::own(card)?;
    put_at(buffer, slot, room, card)
}

pub fn put(buffer: &mut [u8], room: u16, card: &[u8]) -> Used
    ensures { Puts (put room card.now buffer.old) buffer.old buffer.new result }
{
    match placed(buffer, room, card) {
        Err(refusal) => Used::from(refusal),
        Ok(used) => used,
    }
}
