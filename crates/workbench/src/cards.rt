// What is done with a card, a file's or a room's in a book: list, check, at, explain, table, points, and put
// into a book.
use crate::places::front;
use crate::source::Source;
use crate::swings::Care;
use crate::tell::{Done, Undone};
use decode::Card;
use knots::Kind;
use opened::Opened;
use std::io::Error;

// What is asked of a card; `At` of how many arguments there are, `Explain` at which minute, `Put` for which
// room.
#[derive(Clone, Copy)]
enum Job {
    List,
    At(usize),
    Explain(u16),
    Put(u16, Care),
    Sound(Report),
}

// And of one that is accepted; `Table` every how many minutes.
#[derive(Clone, Copy)]
enum Report {
    Check(Care),
    Table(u16),
    Points,
}

fn list(rt: HostRuntime, source: Source) -> Done {
    let mut text = io::buffer();
    let listed = card_listing::list_card(source.bytes, &mut text);
    crate::tell::judged(rt, source.name, listed.verdict)?;
    crate::tell::print(rt, front(&text, listed.length))
}

// The looks for the minute's gap stand behind the three numbers.
#[tactic(auto, using(listing::proofs::Lengths::length_counted_line))]
fn print_reading(rt: HostRuntime, minute: u16, reading: lists::CardReading) -> Done {
    let mut text = io::buffer();
    let n = listing::counted_line(
        &mut text,
        0,
        minute,
        reading.value,
        reading.slope,
        reading.curvature,
        reading.looks,
    );
    crate::tell::print(rt, front(&text, n))
}

// At the minute that argument i is.
fn read_off(rt: HostRuntime, source: Source, i: usize) -> Done {
    let minute = crate::arguments::number(rt, i)?;
    let reading = card::reading(source.bytes, minute);
    if reading.number != 0 {
        let (number, place) = (reading.number, reading.place);
        return Err(crate::tell::refused_at(rt, source.name, minute, number, place));
    }
    print_reading(rt, minute, reading)
}

// A card that is refused is told once; each minute is answered, also behind one that is refused.
fn at(rt: HostRuntime, source: Source, count: usize) -> Done {
    let checked = card::check(source.bytes);
    crate::tell::accepted(rt, source.name, checked.number, checked.place)?;
    crate::tell::each(3..count, |i| read_off(rt, source, i))
}

fn sound(rt: HostRuntime, source: Source, kind: Kind, card: Card, report: Report) -> Done {
    let first = crate::checks::first_minute(card);
    match report {
        Report::Check(care) => crate::checks::report(rt, source, kind, card, care),
        Report::Table(every) => crate::tables::print(rt, source.bytes, first, every),
        Report::Points => {
            let listed = list(rt, source);
            listed.max(crate::tables::print(rt, source.bytes, first, 1))
        }
    }
}

fn opened(rt: HostRuntime, source: Source, report: Report) -> Done {
    let opened = Opened::by_head(source.bytes);
    crate::tell::judged(rt, source.name, opened.verdict)?;
    sound(rt, source, opened.kind, opened.card, report)
}

fn with(rt: HostRuntime, source: Source, job: Job) -> Done {
    match job {
        Job::List => list(rt, source),
        Job::At(count) => at(rt, source, count),
        Job::Explain(minute) => crate::explained::print(rt, source, minute),
        Job::Put(room, care) => crate::books::put(rt, source, room, care),
        Job::Sound(report) => opened(rt, source, report),
    }
}

fn with_room(rt: HostRuntime, name: &[u8], file: &[u8], room: u16, job: Job) -> Done {
    let mut buffer = io::large_buffer();
    let bytes = crate::files::load(rt, file, &mut buffer)?;
    let book = Source { name: file, bytes };
    if let Job::Explain(minute) = job {
        return crate::books::explain(rt, name, book, room, minute);
    }
    let bytes = crate::books::look(rt, book, room)?;
    with(rt, Source { name, bytes }, job)
}

// Only a name that no file has can be a room's; of any other file it is told why it cannot be read.
fn without_file(rt: HostRuntime, name: &[u8], job: Job, error: Error) -> Done {
    if crate::host::is_missing(error) {
        if let Some((file, room)) = crate::rooms::named(name) {
            return with_room(rt, name, file, room, job);
        }
    }
    let undone = crate::files::unloaded(rt, name, error);
    crate::rooms::tell_odd(rt, name);
    Err(undone)
}

// Argument i's card. No card has more than 1,038 bytes, and what follows one is told by its first byte.
fn with_argument(rt: HostRuntime, i: usize, job: Job) -> Done {
    let mut buffer = io::buffer();
    let name = crate::host::arg(rt, i, &mut buffer);
    let mut bytes = io::buffer();
    match crate::files::load_file(rt, name, &mut bytes) {
        Err(error) => without_file(rt, name, job, error),
        Ok(n) => {
            let bytes = &bytes[..n];
            with(rt, Source { name, bytes }, job)
        }
    }
}

// ---- the commands

pub(crate) fn list_argument(rt: HostRuntime) -> Done {
    with_argument(rt, 2, Job::List)
}

// Each card is answered, also behind one that is refused.
pub(crate) fn check(rt: HostRuntime, count: usize) -> Done {
    let care = Care::asked_for(rt, 2, 3)?;
    let job = Job::Sound(Report::Check(care));
    crate::tell::each(4..count, |i| with_argument(rt, i, job))
}

// What is not a number is told before anything is printed.
pub(crate) fn minutes(rt: HostRuntime, count: usize) -> Done {
    for i in 3..count {
        crate::arguments::number(rt, i)?;
    }
    with_argument(rt, 2, Job::At(count))
}

pub(crate) fn explain(rt: HostRuntime) -> Done {
    let minute = crate::arguments::number(rt, 3)?;
    with_argument(rt, 2, Job::Explain(minute))
}

pub(crate) fn table(rt: HostRuntime, count: usize) -> Done {
    let every = if count < 4 {
        1
    } else {
        crate::arguments::number(rt, 3)?
    };
    with_argument(rt, 2, Job::Sound(Report::Table(every)))
}

// The bound, argument 3, is the drawing's to use; here it only has to be one.
pub(crate) fn points(rt: HostRuntime) -> Done {
    Care::asked_for(rt, 3, 4)?;
    with_argument(rt, 2, Job::Sound(Report::Points))
}

// Argument 5's card.
pub(crate) fn put(rt: HostRuntime, room: u16) -> Done {
    let care = Care::asked_for(rt, 6, 7)?;
    with_argument(rt, 5, Job::Put(room, care))
}
