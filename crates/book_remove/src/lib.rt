// A room taken out of a book: the records behind it move up, the closing record with them. Document 02, order 11.
// What a user calls asks nothing of its caller.
#![tactic(auto)]

ghost use Rattle.std.specs.Prelude.{◌≡◌};
ghost use Rattle.book.specs.Lookup.{used_of};
ghost use Rattle.book_put.specs.Put.{Puts};
ghost use Rattle.book_remove.specs.Remove.{remove};

use answer::{Reason, Refusal};
use book::Used;

// 14, 22, 20. A refusal writes nothing, and a removal nothing behind the new closing record.
fn taken(buffer: &mut [u8], room: u16) -> Result<Used, Refusal>
    ensures { Puts (remove room buffer.old) buffer.old buffer.new (used_of result) }
{
    let slot = book::walk(buffer, room)?;
    answer::refuse(Reason::NoRoom, 0, slot.size == 0)?;
    let from = slot.at + slot.size;
    moves::slide(buffer, from, slot.at, slot.bytes - from);
    Ok(Used {
        number: 0,
        place: 0,
        bytes: (slot.bytes - slot.size) as u32,
    })
}

pub fn remove(buffer: &mut [u8], room: u16) -> Used
    ensures { Puts (remove room buffer.old) buffer.old buffer.new result }
{
    match taken(buffer, room) {
        Err(refusal) => Used::from(refusal),
        Ok(used) => used,
    }
}
