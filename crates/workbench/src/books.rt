// A book of the rooms' cards: made, listed, a room's card found in it, explained, or put into it, and a room
// taken out. Argument 3 is the book's file, argument 4 the room, argument 5 the card's file, arguments 6 and
// 7 what is cared for.
ghost use Rattle.std.specs.Prelude.{◌-◌, length};
ghost use Rattle.std.specs.Iterator.{at_most};

use crate::checks::Reach;
use crate::places::front;
use crate::source::Source;
use crate::swings::Care;
use crate::tell::{Done, Undone};
use answer::Reason;
use book::{Step, Used};
use opened::Opened;
use std::fmt;
use std::fmt::{Display, Formatter, Write};

// A closing record alone.
fn new(rt: HostRuntime) -> Done {
    let mut buffer = io::buffer();
    let file = crate::host::arg(rt, 3, &mut buffer);
    crate::files::make(rt, file, &[0, 0, 3, 0])
}

// ---- a line for each room

// `3 18 0 1020`: the room, its knots, its first and its last minute.
fn list_card(rt: HostRuntime, file: &[u8], room: u16, card: &[u8]) -> Done {
    let opened = Opened::by_head(card);
    opened.verdict.map_err(|refusal| {
        crate::tell::refused_in(rt, file, room, refusal.number(), refusal.place)
    })?;
    let card = opened.card;
    let first = crate::checks::first_minute(card);
    let last = crate::checks::last_minute(card);
    crate::tell::line(
        rt,
        b"",
        format_args!("{room} {} {first} {last}", card.knots),
    )
}

// The card in a room's record, behind its head.
fn card_in(record: &[u8]) -> &[u8] {
    record.get(6..).unwrap_or(&[])
}

// The rooms of a book from an offset on, each with its card.
#[derive(Drop)]
struct Rooms<'a> {
    book: &'a [u8],
    at: usize,
}

impl<'a> Iterator for Rooms<'a> {
    type Item = (u16, &'a [u8]);

    ghost remaining = { λ rooms. at_most (length rooms.book.now - rooms.at) };

    fn next(&mut self) -> Option<(u16, &'a [u8])> {
        let Step::Room { room, next } = book::step_at(self.book, self.at) else {
            return None;
        };
        let record = self.book.get(self.at..next)?;
        if record.is_empty() {
            return None;
        }
        self.at = next;
        Some((room, card_in(record)))
    }
}

// Of how many bytes a book may have.
#[derive(Clone, Copy)]
struct InUse(u32);

impl Display for InUse {
    fn fmt<W: Write>(&self, f: &mut Formatter<W>) -> fmt::Result {
        write!(f, "{} of {} bytes in use", self.0, Used::MOST)
    }
}

// Each room of a book that is sound, also behind one whose card is refused.
fn list(rt: HostRuntime, book: Source) -> Done {
    let used = book::check(book.bytes);
    crate::tell::accepted(rt, book.name, used.number, used.place)?;
    let mut done = Ok(());
    let mut count: usize = 0;
    let rooms = Rooms {
        book: book.bytes,
        at: 0,
    };
    for (room, card) in rooms {
        done = done.max(list_card(rt, book.name, room, card));
        if done == Err(Undone::Gone) {
            break;
        }
        count = count.saturating_add(1);
    }
    let in_use = InUse(used.bytes);
    done.max(crate::tell::line(rt, b"", format_args!("ok {count}, {in_use}")))
}

// ---- a room's card

// What the book itself is refused with is told of the book, 20 and what the card is refused with of the room.
pub(crate) fn look<'a>(rt: HostRuntime, book: Source<'a>, room: u16) -> Result<&'a [u8], Undone> {
    let used = book::check(book.bytes);
    crate::tell::accepted(rt, book.name, used.number, used.place)?;
    let spot = book::find(book.bytes, room);
    if spot.number != 0 {
        let (number, place) = (spot.number, spot.place);
        return Err(crate::tell::refused_in(rt, book.name, room, number, place));
    }
    Ok(book::lookup(book.bytes, room))
}

// A card is explained whether it is accepted or not; the book's refusals and 20 are told as above.
pub(crate) fn explain(rt: HostRuntime, name: &[u8], book: Source, room: u16, minute: u16) -> Done {
    let slot = book::walk(book.bytes, room).map_err(|refusal| {
        crate::tell::refused(rt, book.name, refusal.number(), refusal.place)
    })?;
    if slot.size == 0 {
        let absent = Reason::NoRoom.number();
        return Err(crate::tell::refused_in(rt, book.name, room, absent, 0));
    }
    let behind = book.bytes.get(slot.at..).unwrap_or(&[]);
    let bytes = card_in(front(behind, slot.size));
    crate::explained::print(rt, Source { name, bytes }, minute)
}

// A card that goes to standard output goes alone.
fn save_card(rt: HostRuntime, file: &[u8], room: u16, card: &[u8]) -> Done {
    let mut buffer = io::buffer();
    let to = crate::host::arg(rt, 5, &mut buffer);
    crate::files::save(rt, to, card)?;
    if crate::files::is_dash(to) {
        return Ok(());
    }
    list_card(rt, file, room, card)
}

fn find(rt: HostRuntime, book: Source, room: u16, count: usize) -> Done {
    let card = look(rt, book, room)?;
    if count < 6 {
        return list_card(rt, book.name, room, card);
    }
    save_card(rt, book.name, room, card)
}

// ---- a book that is changed

// The file is made anew with the bytes in use.
fn save(rt: HostRuntime, file: &[u8], book: &[u8], bytes: u32) -> Done {
    crate::files::save(rt, file, front(book, bytes as usize))
}

// ---- a card put in

// `rooms.book: room 3: put in, 18 knots, minute 0 to 1020, 312 of 16384 bytes in use`. The buffer has room for
// every book, so that 21 is only ever said of the limit.
fn put_in(
    rt: HostRuntime,
    file: &[u8],
    book: &mut [u8],
    done: &str,
    room: u16,
    card: &[u8],
    reach: Reach,
) -> Done {
    let used = book_put::put(book, room, card);
    crate::tell::accepted(rt, file, used.number, used.place)?;
    save(rt, file, book, used.bytes)?;
    let in_use = InUse(used.bytes);
    crate::tell::line(
        rt,
        file,
        format_args!(": room {room}: {done}, {reach}, {in_use}"),
    )
}

// The book is judged by its file's own bytes: the zeros behind them in the buffer could end a record that is
// cut short.
pub(crate) fn put(rt: HostRuntime, card: Source, room: u16, care: Care) -> Done {
    let mut buffer = io::buffer();
    let file = crate::host::arg(rt, 3, &mut buffer);
    let mut book = io::large_buffer();
    let bytes = crate::files::load(rt, file, &mut book)?;
    let used = book::check(bytes);
    crate::tell::accepted(rt, file, used.number, used.place)?;
    let done = if book::find(bytes, room).number == Reason::NoRoom.number() {
        "put in"
    } else {
        "replaced"
    };
    let opened = Opened::by_head(card.bytes);
    crate::tell::judged(rt, card.name, opened.verdict)?;
    crate::swings::allow(rt, card, &[], care)?;
    let reach = Reach::of(opened.card);
    put_in(rt, file, &mut book, done, room, card.bytes, reach)
}

// ---- a room taken out

// `rooms.book: room 9: taken out, 312 of 16384 bytes in use, 16072 free`. No card is tested, so that a damaged
// one can go too.
fn take_out(rt: HostRuntime, file: &[u8], book: &mut [u8], room: u16) -> Done {
    let used = book_remove::remove(book, room);
    if used.number != 0 {
        let (number, place) = (used.number, used.place);
        return Err(crate::tell::refused_in(rt, file, room, number, place));
    }
    save(rt, file, book, used.bytes)?;
    let in_use = InUse(used.bytes);
    let free = Used::MOST.saturating_sub(used.bytes as usize);
    crate::tell::line(
        rt,
        file,
        format_args!(": room {room}: taken out, {in_use}, {free} free"),
    )
}

// The book is judged by its file's own bytes, as for a card put in; what is refused then is the room.
fn remove(rt: HostRuntime, room: u16) -> Done {
    let mut buffer = io::buffer();
    let file = crate::host::arg(rt, 3, &mut buffer);
    let mut book = io::large_buffer();
    let used = book::check(crate::files::load(rt, file, &mut book)?);
    crate::tell::accepted(rt, file, used.number, used.place)?;
    take_out(rt, file, &mut book, room)
}

// ---- which of them is asked for

// What is done with a book as it stands in its file.
fn with<F: FnOnce(Source) -> Done>(rt: HostRuntime, job: F) -> Done
    requires { F.IsAlwaysCallable job }
{
    let mut buffer = io::buffer();
    let name = crate::host::arg(rt, 3, &mut buffer);
    let mut bytes = io::large_buffer();
    let bytes = crate::files::load(rt, name, &mut bytes)?;
    job(Source { name, bytes })
}

fn with_room(rt: HostRuntime, word: &[u8], room: u16, count: usize) -> Done {
    match word {
        b"find" => with(rt, |book| find(rt, book, room, count)),
        b"put" => crate::cards::put(rt, room),
        b"remove" => remove(rt, room),
        _ => Err(Undone::Failed),
    }
}

// By argument 2. What is not a number is told before a file is read.
pub(crate) fn run(rt: HostRuntime, count: usize) -> Done {
    let mut buffer = io::buffer();
    match crate::host::arg(rt, 2, &mut buffer) {
        b"new" => new(rt),
        b"list" => with(rt, |book| list(rt, book)),
        word => with_room(rt, word, crate::arguments::number(rt, 4)?, count),
    }
}
